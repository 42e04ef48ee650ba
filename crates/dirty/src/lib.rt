// Which lines fetch a dirty byte, eight lines at a time.
// Lines and rows are plain numbers with their bounds in `requires` (see `chip::Screen`). Mode, screen and map are
// three parameters: what looks for a table needs no map, what looks into a part of the map no screen, and the mode is told once.
#![tactic(auto)]

mod clear;
mod joined;
mod marks;
mod part;
mod plane;
mod rows;
mod scan;
mod tables;

pub use clear::is_clear;
pub use rows::dirty_rows;
