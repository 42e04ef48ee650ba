// Where a cell's bytes stand.
ghost use Rattle.std.specs.Prelude.{◌≡◌, ◌<◌};
ghost use Rattle.planes.specs.Cells.{cells_in, name_address, pattern_address, colour_address};

use chip::{Mode, Screen};

// How many cells a line has. (A mode's three numbers, with `cell_width` and `margin_of`, stay three functions, as they are three
// definitions: a struct of them would only be taken apart where it is made.)
pub fn cells_in(mode: Mode) -> usize
    ensures { result ≡ cells_in mode }
{
    match mode {
        Mode::Blank => 0,
        Mode::GraphicsI | Mode::GraphicsII | Mode::Multicolor => 32,
        Mode::Text => 40,
    }
}

// The name of cell i of line l.
#[tactic(auto, unfolding(crate::specs::Cells::name_address))]
pub fn name_address(mode: Mode, screen: Screen, l: usize, i: usize) -> usize
    requires { (l < 192) × (i < cells_in mode) }
    ensures { result ≡ name_address mode screen.entry.registers l i }
{
    screen.registers[2] as usize * 1024 + (l / 8 * cells_in(mode) + i)
}

// The pattern byte of a name on line l.
#[tactic(auto, unfolding(crate::specs::Cells::pattern_address))]
pub fn pattern_address(mode: Mode, screen: Screen, l: usize, name: u8) -> usize
    requires { l < 192 }
    ensures { result ≡ pattern_address mode screen.entry.registers l name }
{
    let n = name as usize;
    let b = screen.registers[4] as usize;
    match mode {
        Mode::Blank => 0,
        Mode::GraphicsI | Mode::Text => b * 2048 + (8 * n + l % 8),
        Mode::GraphicsII => b / 4 * 8192 + (l / 64 * 2048 + 8 * n + l % 8),
        Mode::Multicolor => b * 2048 + (8 * n + l / 4 % 8),
    }
}

// The colours of a name on line l, in the modes that have a table of them.
#[tactic(auto, unfolding(crate::specs::Cells::colour_address))]
pub fn colour_address(mode: Mode, screen: Screen, l: usize, name: u8) -> usize
    requires { l < 192 }
    ensures { result ≡ colour_address mode screen.entry.registers l name }
{
    let n = name as usize;
    let b = screen.registers[3] as usize;
    match mode {
        Mode::GraphicsI => b * 64 + n / 8,
        Mode::GraphicsII => b / 128 * 8192 + (l / 64 * 2048 + 8 * n + l % 8),
        Mode::Blank | Mode::Multicolor | Mode::Text => 0,
    }
}
