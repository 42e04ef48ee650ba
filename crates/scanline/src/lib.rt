// A line: its pattern plane, its sprites and its note; the call that draws it, with its origins or without.
// Lines and columns are plain numbers with their bounds in `requires` (see `chip::Screen`).
#![tactic(auto)]

mod call;
mod colours;
mod draw;
mod note;

pub use call::draw_line;
pub use colours::draw_colours;
pub use draw::{draw_row, has_sprites};
pub use note::{note_of, status_after};
