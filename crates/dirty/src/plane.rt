// Which lines' cells fetch a dirty byte, a row of names at a time: its eight lines show the same names.
ghost use Rattle.std.specs.Prelude.{◌≡◌, ℕ, ◌+◌, ◌*◌, ◌<◌};
ghost use Rattle.chip.specs.Tables.{patterns, colours};
ghost use Rattle.dirty.specs.Plane.{ByteBits, table_dirty, names_dirty};
ghost use Rattle.dirty.specs.Rows.{RowBits};
ghost use Rattle.dirty.specs.Tables.{table_of, cells_dirty};
ghost use Rattle.fetches.specs.Fetch.{fetched, any_dirty};
ghost use Rattle.planes.specs.Cells.{plane_of};

use crate::joined::{joined, shared_dirty, shown};
use crate::part::part_dirty;
use crate::tables::{Table, names_from, names_long, table_from, table_long, third_of};
use chip::{Mode, Screen};

// Whether one of a row's names is dirty, which all its lines fetch.
#[tactic(auto, using(crate::proofs::Laws::Tables::inside))]
fn names_dirty(mode: Mode, screen: Screen, map: &[u8; 2048], row: usize) -> bool
    requires { row < 24 }
    ensures { (k : ℕ) → k < 8 → result ≡ names_dirty mode screen.entry.registers map.now (8 * row + k) }
{
    part_dirty(map, names_from(mode, screen, row), names_long(mode))
}

// Whether a table has a dirty byte.
#[tactic(auto, using(crate::proofs::Laws::Tables::inside))]
fn table_dirty(mode: Mode, table: Table, screen: Screen, map: &[u8; 2048]) -> bool
    ensures { result ≡ table_dirty mode (table_of table) screen.entry.registers map.now }
{
    part_dirty(
        map,
        table_from(mode, table, screen),
        table_long(mode, table),
    )
}

// The lines of a row that fetch a dirty byte of a table.
#[tactic(auto, using(crate::proofs::Laws::Tables::inside))]
fn cells_joined(mode: Mode, table: Table, screen: Screen, map: &[u8; 2048], row: usize) -> u8
    requires { row < 24 }
    ensures { ByteBits result (λ k. cells_dirty mode table screen.entry.registers screen.entry.vram.now map.now (8 * row + k)) }
{
    let vram = screen.vram;
    let first = 8 * names_from(mode, screen, row);
    let names = &vram[first..first + 8 * names_long(mode)];
    let base = table_from(mode, table, screen) + third_of(mode, row);
    match (table, mode) {
        (Table::Patterns, _) => shown(mode, row, joined(names, map, base)),
        (Table::Colours, Mode::GraphicsI) => {
            if shared_dirty(names, map, base) {
                255
            } else {
                0
            }
        }
        (Table::Colours, Mode::GraphicsII) => joined(names, map, base),
        (Table::Colours, Mode::Blank | Mode::Multicolor | Mode::Text) => 0,
    }
}

// The same, by whether the table has a dirty byte at all.
fn cells_dirty(
    mode: Mode,
    table: Table,
    screen: Screen,
    map: &[u8; 2048],
    row: usize,
    dirty: bool,
) -> u8
    requires { (row < 24) × (dirty ≡ table_dirty mode (table_of table) screen.registers map.now) }
    ensures { ByteBits result (λ k. cells_dirty mode table screen.entry.registers screen.entry.vram.now map.now (8 * row + k)) }
{
    if dirty {
        cells_joined(mode, table, screen, map, row)
    } else {
        0
    }
}

// The lines of one row that fetch a dirty byte.
fn row_dirty(
    mode: Mode,
    screen: Screen,
    map: &[u8; 2048],
    row: usize,
    in_patterns: bool,
    in_colours: bool,
) -> u8
    requires { (row < 24) × (in_patterns ≡ table_dirty mode patterns screen.registers map.now) × (in_colours ≡ table_dirty mode colours screen.registers map.now) }
    ensures { ByteBits result (λ k. any_dirty map.now (fetched (plane_of mode screen.entry.registers (8 * row + k)) screen.entry.vram.now)) }
{
    if names_dirty(mode, screen, map, row) {
        return 255;
    }
    cells_dirty(mode, Table::Patterns, screen, map, row, in_patterns)
        | cells_dirty(mode, Table::Colours, screen, map, row, in_colours)
}

// Which lines' cells fetch a dirty byte, as a byte for each row of names.
pub fn plane_rows_dirty(mode: Mode, screen: Screen, map: &[u8; 2048]) -> [u8; 24]
    ensures { RowBits result (λ l. any_dirty map.now (fetched (plane_of mode screen.entry.registers l) screen.entry.vram.now)) }
{
    let in_patterns = table_dirty(mode, Table::Patterns, screen, map);
    let in_colours = table_dirty(mode, Table::Colours, screen, map);
    let mut rows: [u8; 24] = [0; 24];
    for (row, byte) in rows.iter_mut().enumerate() {
        *byte = row_dirty(mode, screen, map, row, in_patterns, in_colours);
    }
    rows
}
