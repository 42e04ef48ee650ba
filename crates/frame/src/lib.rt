// Full draw and refresh: 192 lines into a lent frame, their notes, and status updated by them.
#![tactic(auto)]

mod calls;
mod lines;
mod status;

pub use calls::{full_draw, refresh};
