// Snapshots: VRAM and the state as one file, with a trailer that points back and a sum.
#![tactic(auto)]

mod parts;
mod reading;
mod sums;
mod trailer;
mod writing;

pub use reading::read;
pub use sums::checksum;
pub use writing::write;
