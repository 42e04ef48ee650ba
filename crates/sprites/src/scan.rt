// The scan of the attribute table for one line.
ghost use Rattle.std.specs.Prelude.{◌≡◌, take};
ghost use Rattle.fetches.specs.Fetch.{value};
ghost use Rattle.sprites.specs.Scan.{scan_of};
ghost use Rattle.sprites.specs.Held.{Held};

use crate::shape::{covers, is_terminator};
use crate::sprite::{NO_SPRITE, Sprite, attribute_address, sprite_of};
use chip::Screen;

// How a scan ended.
#[derive(Clone, Copy)]
pub enum Ended {
    Terminator,
    // The number of the fifth sprite that covers the line.
    Fifth(u8),
    // All 32 were seen.
    All,
}

// The first four sprites that cover the line, with the registers that they were read under.
#[derive(Clone, Copy)]
pub struct Scan {
    pub registers: [u8; 8],
    pub sprites: [Sprite; 4],
    // How many of the four places are taken. A slice of them would need another lifetime, a Vec a heap, and an ArrayVec is not Copy.
    pub drawn: usize,
    pub ended: Ended,
    pub ghost held: { Held registers sprites drawn },
}

#[tactic(auto, using(crate::proofs::Laws::Bounds::addresses, crate::proofs::Laws::Scan::steps))]
pub fn scan_of(screen: Screen, l: u8) -> Scan
    ensures registers { result.registers ≡ screen.entry.registers }
    ensures sprites { take result.drawn result.sprites ≡ (value (scan_of screen.entry.registers l) screen.entry.vram.now).sprites }
    ensures ended { result.ended ≡ (value (scan_of screen.entry.registers l) screen.entry.vram.now).ended }
{
    let r = screen.registers;
    let mut sprites = [NO_SPRITE; 4];
    let mut drawn = 0;
    let mut n = 0;
    // No `for`: the loop leaves by `break` with how the scan ended, and a `for` has no value.
    let ended = loop {
        if n == 32 {
            break Ended::All;
        }
        let y = screen.vram[attribute_address(r, n, 0)];
        let covering = covers(r, l, y);
        if is_terminator(y) {
            break Ended::Terminator;
        }
        if covering {
            if drawn == 4 {
                break Ended::Fifth(n as u8);
            }
            sprites[drawn] = sprite_of(screen, l, y, n);
            drawn += 1;
        }
        n += 1;
    };
    Scan {
        registers: r,
        sprites,
        drawn,
        ended,
    }
}
