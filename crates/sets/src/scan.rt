// A line's scan by its set: the first four sprites are its lowest bits, and the fifth is the next.
ghost use Rattle.fetches.specs.Fetch.{value};
ghost use Rattle.sprites.specs.Scan.{scan_of};
ghost use Rattle.sets.specs.Sets.{IsSet, FoundBySet};

use chip::Screen;
use sprites::{Ended, NO_SPRITE, Scan, attribute_address, sprite_of};

#[tactic(auto, using(sprites::proofs::Laws::Bounds::addresses, crate::proofs::Laws::Bits::lowest_small))]
// As in `sprites::scan_of`, the loop leaves by `break` with how the scan ended; it goes from one set bit to the next.
pub fn scan_by_set(screen: Screen, l: u8, set: u32) -> Scan
    requires { IsSet screen.registers screen.vram.now l set }
    ensures { FoundBySet screen.entry.registers result (value (scan_of screen.entry.registers l) screen.entry.vram.now) }
{
    let mut sprites = [NO_SPRITE; 4];
    let mut drawn = 0;
    let mut left = set;
    let ended = loop {
        if left == 0 {
            break Ended::All;
        }
        let n = left.trailing_zeros();
        if drawn == 4 {
            break Ended::Fifth(n as u8);
        }
        let number = n as usize;
        let y = screen.vram[attribute_address(screen.registers, number, 0)];
        sprites[drawn] = sprite_of(screen, l, y, number);
        drawn += 1;
        left &= left - 1;
    };
    Scan {
        registers: screen.registers,
        sprites,
        drawn,
        ended,
    }
}
