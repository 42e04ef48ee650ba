// Whether a byte that the scan of a line fetches is dirty.
ghost use Rattle.std.specs.Prelude.{◌≡◌, ◌+◌, ◌<◌, true, ◌&&◌, ◌||◌, length, if◌then◌else◌};
ghost use Rattle.chip.specs.Map.{is_dirty};
ghost use Rattle.chip.specs.Modes.{large_sprites};
ghost use Rattle.fetches.specs.Fetch.{fetched, any_dirty};
ghost use Rattle.sprites.specs.Scan as scan;
ghost use Rattle.sprites.specs.Shape as shape;

use crate::shape::{covers, is_large, is_terminator};
use crate::sprite::{attribute_address, sprite_pattern_address};
use chip::{Screen, is_dirty};

// Of a pattern byte and, with size, the right half's.
fn pattern_dirty(r: [u8; 8], map: &[u8; 2048], at: usize) -> bool
    requires { at + (if large_sprites r then 16 else 0) < 16384 }
    ensures { result ≡ (is_dirty map.now at || large_sprites r && is_dirty map.now (at + 16)) }
{
    is_dirty(map, at) | (is_large(r) && is_dirty(map, at + 16))
}

// Of what is read of sprite n, which covers line l.
#[tactic(auto, using(crate::proofs::Laws::Bounds::addresses, crate::proofs::Laws::Due::of_sprite))]
fn sprite_dirty(screen: Screen, map: &[u8; 2048], l: u8, y: u8, n: usize) -> bool
    requires { (shape.covers screen.registers l y ≡ true) × (n < 32) }
    ensures { result ≡ any_dirty map.now (fetched (scan.sprite_of screen.entry.registers l n y) screen.entry.vram.now) }
{
    let r = screen.registers;
    let x_at = attribute_address(r, n, 1);
    let name_at = attribute_address(r, n, 2);
    let colour_at = attribute_address(r, n, 3);
    let name = screen.vram[name_at];
    let at = sprite_pattern_address(screen, l, y, name);
    is_dirty(map, x_at)
        | (is_dirty(map, name_at) | (is_dirty(map, colour_at) | pattern_dirty(r, map, at)))
}

// Of the scan of line l. It looks at the same sprites as the scan does.
#[tactic(auto, using(crate::proofs::Laws::Bounds::addresses, crate::proofs::Laws::Due::steps))]
pub fn scan_dirty(screen: Screen, map: &[u8; 2048], l: u8) -> bool
    ensures { result ≡ any_dirty map.now (fetched (scan.scan_of screen.entry.registers l) screen.entry.vram.now) }
{
    let r = screen.registers;
    // Only counted: no sprite is kept here.
    let mut drawn: usize = 0;
    for n in 0..32 {
        let at = attribute_address(r, n, 0);
        if is_dirty(map, at) {
            return true;
        }
        let y = screen.vram[at];
        let covering = covers(r, l, y);
        if is_terminator(y) {
            return false;
        }
        if covering {
            if drawn == 4 {
                return false;
            }
            if sprite_dirty(screen, map, l, y, n) {
                return true;
            }
            drawn += 1;
        }
    }
    false
}
