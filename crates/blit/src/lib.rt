// The sprites that a scan found, painted eight pixels at a time. Their rows are compared, column for column, as numbers.
#![tactic(auto)]

mod draw;
mod meet;
mod paint;
mod wide;
mod wide_sprite;

pub use draw::draw_found;
