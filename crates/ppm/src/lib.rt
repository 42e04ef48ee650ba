// A snapshot as a picture: a binary PPM of 256 by 192 pixels, written piece by piece into lent slices.
#![tactic(auto)]

mod paint;
mod palette;
mod walk;

pub use text::Piece;
pub use walk::{Walk, start, step};
