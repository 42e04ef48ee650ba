// Where the bytes stand that give a column its pattern and colours.
ghost use Rattle.std.specs.Prelude.{◌≡◌, ◌<◌};
ghost use Rattle.planes.specs.Addresses.{addresses_at};

use crate::address::{colour_address, name_address, pattern_address};
use crate::column::{in_cells, place_of};
use chip::{Mode, Screen};

#[derive(Clone, Copy)]
pub struct CellAddresses {
    pub name: usize,
    pub pattern: usize,
    pub colours: usize,
}

// Those of the cell that holds column x of line l, and 0 where none does.
#[tactic(auto, using(crate::proofs::Laws::Cells::addresses, crate::proofs::Laws::Column::cell_one), unfolding(crate::specs::Addresses::addresses_at))]
pub fn addresses_at(mode: Mode, screen: Screen, l: usize, x: usize) -> CellAddresses
    requires { l < 192 }
    ensures value { result ≡ addresses_at mode screen.entry.registers l x screen.entry.vram.now }
    ensures name_bound { (result.name < 16384) × (result.pattern < 16384) × (result.colours < 16384) }
{
    if !in_cells(mode, x) {
        return CellAddresses {
            name: 0,
            pattern: 0,
            colours: 0,
        };
    }
    let place = place_of(mode, x);
    let at = name_address(mode, screen, l, place.cell);
    let name = screen.vram[at];
    let pattern = pattern_address(mode, screen, l, name);
    let colours = colour_address(mode, screen, l, name);
    CellAddresses {
        name: at,
        pattern,
        colours,
    }
}
