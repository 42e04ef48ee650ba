// The sprites that cover each line, found in one pass over the attribute table, and a line's scan by them.
// Lines and sprites are plain numbers with their bounds in `requires` (see `chip::Screen`).
#![tactic(auto)]

mod scan;
mod set;

pub use scan::scan_by_set;
pub use set::sets_of;
