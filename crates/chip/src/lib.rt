// The chip's state and its CPU ports: registers, address, read buffer, waiting first byte, status, redraw mark and the count of
// lost first bytes.
#![tactic(auto)]

mod access;
mod bits;
mod control;
mod data;
mod layout;
mod lists;
mod lost;
mod map;
mod mode;
mod power;
mod refusal;
mod screen;
mod state;
mod status;
mod two_bytes;

pub use bits::{bit, set_bit};
pub use layout::{decode, load};
pub use lists::{copy, put};
pub use map::is_dirty;
pub use mode::{Mode, mode_of};
pub use refusal::{Answer, Refusal};
pub use screen::Screen;
pub use state::Chip;
pub use two_bytes::low_first_at;
