// Where the bits of the pattern plane's tables stand in the map: a byte for eight bytes of a table.
ghost use Rattle.std.specs.Prelude.{◌≡◌, ◌*◌, ◌<◌, ◌+◌};
ghost use Rattle.chip.specs.Tables.{names, base, size};
ghost use Rattle.dirty.specs.Plane.{third_of};
ghost use Rattle.dirty.specs.Tables.{table_of};
ghost use Rattle.planes.specs.Cells.{cells_in};

use chip::{Mode, Screen};

// The two tables that names choose from.
#[derive(Clone, Copy)]
pub enum Table {
    Patterns,
    Colours,
}

// How many bytes a row of names takes.
// This, table_long and third_of stay three functions, as they are three definitions: a struct would only be taken apart where it is made.
pub fn names_long(mode: Mode) -> usize
    ensures { 8 * result ≡ cells_in mode }
{
    match mode {
        Mode::Blank => 0,
        Mode::GraphicsI | Mode::GraphicsII | Mode::Multicolor => 4,
        Mode::Text => 5,
    }
}

// The first of them.
pub fn names_from(mode: Mode, screen: Screen, row: usize) -> usize
    requires { row < 24 }
    ensures { 8 * result ≡ base mode names screen.entry.registers + row * cells_in mode }
{
    screen.registers[2] as usize * 128 + row * names_long(mode)
}

// A table's first byte. Graphics II takes only the highest bit of its register.
pub fn table_from(mode: Mode, table: Table, screen: Screen) -> usize
    ensures { 8 * result ≡ base mode (table_of table) screen.entry.registers }
{
    let r = screen.registers;
    match (mode, table) {
        (Mode::GraphicsII, Table::Patterns) => r[4] as usize / 4 * 1024,
        (Mode::GraphicsII, Table::Colours) => r[3] as usize / 128 * 1024,
        (_, Table::Patterns) => r[4] as usize * 256,
        (_, Table::Colours) => r[3] as usize * 8,
    }
}

// How many bytes it has.
pub fn table_long(mode: Mode, table: Table) -> usize
    ensures { 8 * result ≡ size mode (table_of table) }
{
    match (mode, table) {
        (Mode::GraphicsII, _) => 768,
        (Mode::GraphicsI | Mode::Multicolor | Mode::Text, Table::Patterns) => 256,
        (Mode::GraphicsI, Table::Colours) => 4,
        (Mode::Multicolor | Mode::Text, Table::Colours) | (Mode::Blank, _) => 0,
    }
}

// How far into a table the third of a row of names begins.
pub fn third_of(mode: Mode, row: usize) -> usize
    requires { row < 24 }
    ensures { result ≡ third_of mode row }
{
    match mode {
        Mode::GraphicsII => row / 8 * 256,
        Mode::Blank | Mode::GraphicsI | Mode::Multicolor | Mode::Text => 0,
    }
}
