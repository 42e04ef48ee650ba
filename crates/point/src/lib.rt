// The colour of one point and its origin, without drawing its line.
// Lines and columns are plain numbers with their bounds in `requires` (see `chip::Screen`).
#![tactic(auto)]

mod call;
mod numbers;
mod pixel;

pub use call::{PointAnswer, point};
pub use numbers::Point;
