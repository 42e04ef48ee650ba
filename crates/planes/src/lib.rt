// The pattern plane: the cells of a line in each mode, and the pixels that they show over the backdrop.
// Lines, cells and columns are plain numbers with their bounds in `requires` (see `chip::Screen`). The mode stands beside the screen that
// it is of, since the drawers are made for one mode each, which a caller names.
#![tactic(auto)]

mod address;
mod addresses;
mod cell;
mod column;
mod origin;
mod paint;
mod pixel;
mod plane;

pub use address::cells_in;
pub use addresses::{CellAddresses, addresses_at};
pub use cell::{Cell, cell_of};
pub use column::plane_at;
pub use origin::{Origin, Pixel, in_front};
pub use paint::choose;
pub use pixel::{behind_planes, over};
pub use plane::{cell_width, draw_plane, draw_plane_with_origins, margin_of};
