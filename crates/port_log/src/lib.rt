// Logs of port calls: their format, reading and writing, and the run.
#![tactic(auto)]

mod form;
mod reading;
mod records;
mod running;
mod single;
mod stretch;
mod writing;

pub use reading::read;
pub use running::{Ran, Reached, run};
pub use writing::write;
