// The pattern plane at one column. Of the line's cells it reads the one that holds the column, and no other.
ghost use Rattle.std.specs.Prelude.{◌≡◌, true, [], ◌<◌};
ghost use Rattle.chip.specs.declared.mode.Mode.TheVariants.{Text};
ghost use Rattle.fetches.specs.Fetch.{value};
ghost use Rattle.planes.specs.Plane as plane;
ghost use Rattle.planes.specs.Origin.{settle};

use crate::address::cells_in;
use crate::cell::{Cell, cell_of};
use crate::origin::{Origin, Pixel, in_front, pixel_behind};
use crate::paint::choose;
use crate::plane::{cell_width, margin_of};
use chip::{Mode, Screen, bit};

// Whether a cell holds column x.
pub fn in_cells(mode: Mode, x: usize) -> bool
    ensures { result ≡ plane.in_cells mode x }
{
    let first = margin_of(mode);
    let end = first + cells_in(mode) * cell_width(mode);
    (first..end).contains(&x)
}

// Which cell of a line, and which pixel of it, from the left.
#[derive(Clone, Copy)]
pub struct CellPixel {
    pub cell: usize,
    pub pixel: usize,
}

// Where column x of Text lies, which a cell holds: counted from column 8 on, by 32 cells of six columns at once, then by 16, 8,
// 4, 2 and 1. Steps of one size are a loop that compilers turn back into a division.
fn text_place(x: usize) -> CellPixel
    requires { plane.in_cells Text x ≡ true }
    ensures { result ≡ record { cell = plane.cell_at Text x; pixel = plane.pixel_in_cell Text x } }
{
    let mut cell = 0;
    let mut pixel = x - 8;
    for cells in [32, 16, 8, 4, 2, 1] {
        let columns = cells * 6;
        if columns <= pixel {
            pixel -= columns;
            cell += cells;
        }
    }
    CellPixel { cell, pixel }
}

// Where column x lies, which a cell holds. Cells of eight columns begin at column 0.
pub fn place_of(mode: Mode, x: usize) -> CellPixel
    requires { plane.in_cells mode x ≡ true }
    ensures { result ≡ record { cell = plane.cell_at mode x; pixel = plane.pixel_in_cell mode x } }
{
    if cell_width(mode) == 8 {
        return CellPixel {
            cell: x / 8,
            pixel: x % 8,
        };
    }
    text_place(x)
}

// Pixel k of a cell.
fn pick(cell: Cell, k: usize) -> u8
    requires { k < 8 }
    ensures { result ≡ plane.pick cell k }
{
    let one = cell.colours / 16;
    let zero = cell.colours % 16;
    choose(bit(cell.pattern, (7 - k) as u8), one, zero)
}

// The pixel at column x of line l, with the plane over what stands behind it.
pub fn plane_at(mode: Mode, screen: Screen, l: usize, x: usize) -> Pixel
    requires { l < 192 }
    ensures { result ≡ settle screen.entry.registers [] (plane.cell_colour mode (value (plane.cell_holding mode screen.entry.registers l x) screen.entry.vram.now) x) }
{
    let behind = pixel_behind(screen.registers);
    if !in_cells(mode, x) {
        return behind;
    }
    let place = place_of(mode, x);
    let cell = cell_of(mode, screen, l, place.cell);
    in_front(pick(cell, place.pixel), Origin::Pattern, behind)
}
