// The pattern plane of a line over the backdrop.
ghost use Rattle.std.specs.Prelude.{◌≡◌, [], ◌+◌, ◌≤◌, ◌<◌};
ghost use Rattle.chip.specs.Lists.{tabulate};
ghost use Rattle.fetches.specs.Fetch.{value};
ghost use Rattle.planes.specs.Cells.{cell_width, margin, plane_of};
ghost use Rattle.planes.specs.Plane.{pick, plane_colour};
ghost use Rattle.planes.specs.Pixel as pixel;
ghost use Rattle.planes.specs.Origin.{origin_code, in_front, settle};
ghost use Rattle.planes.specs.declared.origin.Origin.TheVariants.{Pattern};
ghost use Rattle.planes.specs.Painted.{Painted};

use crate::address::cells_in;
use crate::cell::{Cell, cell_of};
use crate::origin::{Origin, Pixel, in_front, pixel_behind};
use crate::paint::paint_pattern;
use crate::pixel::{behind_planes, over};
use chip::{Mode, Screen};

// Three numbers of a mode stay three functions (see `cells_in`).
pub fn cell_width(mode: Mode) -> usize
    ensures { result ≡ cell_width mode }
{
    match mode {
        Mode::Blank | Mode::GraphicsI | Mode::GraphicsII | Mode::Multicolor => 8,
        Mode::Text => 6,
    }
}

pub fn margin_of(mode: Mode) -> usize
    ensures { result ≡ margin mode }
{
    match mode {
        Mode::Blank | Mode::GraphicsI | Mode::GraphicsII | Mode::Multicolor => 0,
        Mode::Text => 8,
    }
}

// A cell's pixels over what stands behind them.
fn show_cell(line: &mut [u8; 256], at: usize, mode: Mode, cell: Cell, behind: u8)
    requires { at + cell_width mode ≤ 256 }
    ensures { Painted line.new line.old at (cell_width mode) (λ k. pixel.over (pick cell k) behind) }
{
    let one = over(cell.colours / 16, behind);
    let zero = over(cell.colours % 16, behind);
    paint_pattern(line, at, mode, cell.pattern, one, zero);
}

// The code of a pixel's origin where the plane has this colour.
fn plane_code(colour: u8, behind: Pixel) -> u8
    ensures { result ≡ origin_code (in_front colour Pattern behind).origin }
{
    in_front(colour, Origin::Pattern, behind).origin.code()
}

// The origins of a cell's pixels, as codes. (A closure for the one step that differs would need a contract of its own: no plainer.)
fn show_origins(origins: &mut [u8; 256], at: usize, mode: Mode, cell: Cell, behind: Pixel)
    requires { at + cell_width mode ≤ 256 }
    ensures { Painted origins.new origins.old at (cell_width mode) (λ k. origin_code (in_front (pick cell k) Pattern behind).origin) }
{
    let one = plane_code(cell.colours / 16, behind);
    let zero = plane_code(cell.colours % 16, behind);
    paint_pattern(origins, at, mode, cell.pattern, one, zero);
}

// Counts through the cells, and through the columns beside them.
#[inline(always)]
fn draw_cells(mode: Mode, screen: Screen, l: usize, line: &mut [u8; 256])
    requires { l < 192 }
    ensures { line.new ≡ tabulate 256 (λ x. pixel.pixel_of screen.entry.registers [] (plane_colour mode (value (plane_of mode screen.entry.registers l) screen.entry.vram.now) x)) }
{
    let behind = behind_planes(screen.registers);
    line.fill(behind);
    let cells = cells_in(mode);
    let width = cell_width(mode);
    let mut at = margin_of(mode);
    for i in 0..cells {
        let cell = cell_of(mode, screen, l, i);
        show_cell(line, at, mode, cell, behind);
        at += width;
    }
}

// The pattern plane of line l over the backdrop, into a lent line. Multicolor's cells all have one pattern, which the compiler knows
// in a loop of their own: two stores paint a cell.
pub fn draw_plane(mode: Mode, screen: Screen, l: usize, line: &mut [u8; 256])
    requires { l < 192 }
    ensures { line.new ≡ tabulate 256 (λ x. pixel.pixel_of screen.entry.registers [] (plane_colour mode (value (plane_of mode screen.entry.registers l) screen.entry.vram.now) x)) }
{
    match mode {
        Mode::Multicolor => draw_cells(Mode::Multicolor, screen, l, line),
        _ => draw_cells(mode, screen, l, line),
    }
}

// The same, and into a second line the code of each pixel's origin. Each cell is read once for both. (A loop of its own: a second line
// that need not be there, or a closure for the step, is no plainer.)
pub fn draw_plane_with_origins(
    mode: Mode,
    screen: Screen,
    l: usize,
    line: &mut [u8; 256],
    origins: &mut [u8; 256],
)
    requires { l < 192 }
    ensures line_after { line.new ≡ tabulate 256 (λ x. pixel.pixel_of screen.entry.registers [] (plane_colour mode (value (plane_of mode screen.entry.registers l) screen.entry.vram.now) x)) }
    ensures origins_after { origins.new ≡ tabulate 256 (λ x. origin_code (settle screen.entry.registers [] (plane_colour mode (value (plane_of mode screen.entry.registers l) screen.entry.vram.now) x)).origin) }
{
    let colour = behind_planes(screen.registers);
    line.fill(colour);
    let behind = pixel_behind(screen.registers);
    origins.fill(behind.origin.code());
    let width = cell_width(mode);
    let mut at = margin_of(mode);
    for i in 0..cells_in(mode) {
        let cell = cell_of(mode, screen, l, i);
        show_cell(line, at, mode, cell, colour);
        show_origins(origins, at, mode, cell, behind);
        at += width;
    }
}
