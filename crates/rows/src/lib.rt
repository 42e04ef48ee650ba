// The pattern plane of the eight lines that show one row of the name table. A cell is drawn on all of them before the next, so that
// its name, and in most modes its colours, are read once for eight lines. A line that is wanted alone is drawn by itself.
// Lines, rows, columns and addresses are plain numbers with their bounds in `requires` (see `chip::Screen`).
#![tactic(auto)]

mod brush;
mod draw;
mod line;
mod paint;
mod shown;
mod stripe;

pub use brush::Brush;
pub use draw::draw_plane_row;
pub use line::draw_plane_line;
pub use paint::paints;
pub use shown::byte_words;
