// The text that shows a snapshot: what a file is answered with, piece by piece, into a lent slice.
// Lines are plain numbers with their bounds in `requires` (see `chip::Screen`).
#![tactic(auto)]

mod numbers;
mod pieces;
mod range;
mod refusal;
mod runs;
mod status;
mod walk;

pub use numbers::{put_decimal, put_long_decimal};
pub use pieces::Piece;
pub use refusal::{put_refusal, refusal_line};
pub use walk::{Walk, start, step};
