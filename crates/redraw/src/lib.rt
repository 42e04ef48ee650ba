// The eight lines of one row of names: those that are due are drawn into a lent part of the frame, with their notes.
// Lines and rows are plain numbers with their bounds in `requires` (see `chip::Screen`).
#![tactic(auto)]

mod drawing;
mod line;
mod row;

pub use drawing::Drawing;
pub use row::redraw_row;
