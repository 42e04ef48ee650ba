// The sprites that a scan found, at one column of the screen.
ghost use Rattle.std.specs.Prelude.{◌≡◌, ◌<◌, take, if◌then◌else◌};
ghost use Rattle.fetches.specs.Fetch.{value};
ghost use Rattle.planes.specs.Origin.{frontmost};
ghost use Rattle.sprites.specs.Pixels.{visible, hits, numbered_colours};
ghost use Rattle.sprites.specs.Scan.{scan_of};

use crate::columns::bit_at;
use crate::scan::{Scan, scan_of};
use crate::shape::{is_terminator, side};
use crate::sprite::{Sprite, attribute_address};
use chip::Screen;
use planes::{Origin, Pixel, choose, in_front};

// A sprite's colour at column c, counted from 32 left of the screen, and 0 where it has no set bit.
#[tactic(auto, using(crate::proofs::Laws::Columns::columns))]
fn colour_at(r: [u8; 8], s: Sprite, c: usize) -> u8
    ensures { result ≡ (if hits r s c then s.colour else 0) }
{
    let first = s.first as usize;
    if c < first || first + side(r) <= c {
        return 0;
    }
    choose(bit_at(r, s, c), s.colour, 0)
}

// The pixel at the screen's column x, with the sprites over what stands behind them: the highest number first, so that a lower one
// comes to lie in front.
fn sprites_at(scan: Scan, x: usize, behind: Pixel) -> Pixel
    requires { x < 256 }
    ensures { result ≡ frontmost (numbered_colours scan.registers (take scan.drawn scan.sprites) (visible x)) behind }
{
    let mut pixel = behind;
    for s in scan.sprites[..scan.drawn].iter().rev() {
        let colour = colour_at(scan.registers, *s, x + 32);
        pixel = in_front(colour, Origin::Sprite(s.number), pixel);
    }
    pixel
}

// The same at line l, with the sprites read from VRAM. A picture without sprites has the terminator first, and needs no scan.
#[tactic(auto, using(crate::proofs::Laws::Bounds::addresses, crate::proofs::Laws::Scan::steps))]
pub fn sprites_over(screen: Screen, l: u8, x: u8, behind: Pixel) -> Pixel
    ensures { result ≡ frontmost (numbered_colours screen.entry.registers (value (scan_of screen.entry.registers l) screen.entry.vram.now).sprites (visible x)) behind }
{
    let y = screen.vram[attribute_address(screen.registers, 0, 0)];
    if is_terminator(y) {
        return behind;
    }
    let scan = scan_of(screen, l);
    sprites_at(scan, x as usize, behind)
}
