// The sprites of a line: the scan of the attribute table, the pixels of the drawn ones, and their coincidence.
// Lines, columns and sprites are plain numbers with their bounds in `requires` (see `chip::Screen`).
#![tactic(auto)]

mod column;
mod columns;
mod draw;
mod due;
mod meet;
mod paint;
mod scan;
mod shape;
mod sprite;

pub use column::sprites_over;
pub use draw::{draw_numbers, draw_sprites};
pub use due::scan_dirty;
pub use paint::paint_sprite;
pub use scan::{Ended, Scan, scan_of};
pub use shape::{is_magnified, is_terminator, side};
pub use sprite::{NO_SPRITE, Sprite, attribute_address, sprite_of};
