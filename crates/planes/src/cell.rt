// A cell of a line: its name, then its pattern and colours, each fetched once.
ghost use Rattle.std.specs.Prelude.{◌≡◌, ◌<◌};
ghost use Rattle.fetches.specs.Fetch.{value};
ghost use Rattle.planes.specs.Cells.{cells_in, pattern_and_colours, shape_of, cell_of};

use crate::address::{colour_address, name_address, pattern_address};
use chip::{Mode, Screen};

// A pattern byte, and the colours of its 1 bits (high nibble) and 0 bits (low nibble).
#[derive(Clone, Copy)]
pub struct Cell {
    pub pattern: u8,
    pub colours: u8,
}

#[tactic(auto, using(crate::proofs::Laws::Cells::addresses), unfolding(fetches::specs::Fetch::value))]
fn pattern_and_colours(mode: Mode, screen: Screen, l: usize, name: u8) -> Cell
    requires { l < 192 }
    ensures { result ≡ value (pattern_and_colours mode screen.entry.registers l name) screen.entry.vram.now }
{
    let pattern = screen.vram[pattern_address(mode, screen, l, name)];
    let colours = screen.vram[colour_address(mode, screen, l, name)];
    Cell { pattern, colours }
}

// What is fetched for a name on line l.
#[tactic(auto, using(crate::proofs::Laws::Cells::addresses), unfolding(fetches::specs::Fetch::value, crate::specs::Cells::shape_of))]
fn shape_of(mode: Mode, screen: Screen, l: usize, name: u8) -> Cell
    requires { l < 192 }
    ensures { result ≡ value (shape_of mode screen.entry.registers l name) screen.entry.vram.now }
{
    match mode {
        Mode::Blank => Cell {
            pattern: 0,
            colours: 0,
        },
        // Two arms: of one, tried, the compiler made a choice between the two modes' addresses in each cell.
        Mode::GraphicsI => pattern_and_colours(mode, screen, l, name),
        Mode::GraphicsII => pattern_and_colours(mode, screen, l, name),
        Mode::Multicolor => Cell {
            pattern: 0xF0,
            colours: screen.vram[pattern_address(mode, screen, l, name)],
        },
        Mode::Text => Cell {
            pattern: screen.vram[pattern_address(mode, screen, l, name)],
            colours: screen.registers[7],
        },
    }
}

// Cell i of line l.
#[tactic(auto, using(crate::proofs::Laws::Cells::addresses), unfolding(fetches::specs::Fetch::value, crate::specs::Cells::cell_of))]
pub fn cell_of(mode: Mode, screen: Screen, l: usize, i: usize) -> Cell
    requires { (l < 192) × (i < cells_in mode) }
    ensures { result ≡ value (cell_of mode screen.entry.registers l i) screen.entry.vram.now }
{
    let name = screen.vram[name_address(mode, screen, l, i)];
    shape_of(mode, screen, l, name)
}
