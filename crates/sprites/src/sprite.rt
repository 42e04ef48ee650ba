// A drawn sprite: what is read of it.
ghost use Rattle.std.specs.Prelude.{◌≡◌, ◌-◌, ◌%◌, ◌<◌, true, if◌then◌else◌};
ghost use Rattle.chip.specs.Modes.{large_sprites};
ghost use Rattle.chip.specs.State.{masked};
ghost use Rattle.fetches.specs.Fetch.{value};
ghost use Rattle.sprites.specs.Shape.{covers};
ghost use Rattle.sprites.specs.Scan as scan;
ghost use Rattle.sprites.specs.Held.{AsRead};

use crate::shape::{is_large, is_magnified, row_offset, scaled};
use chip::{Screen, bit};

#[derive(Clone, Copy)]
pub struct Sprite {
    // The first column, counted from 32 left of the screen.
    pub first: u16,
    pub colour: u8,
    // The place in the attribute table.
    pub number: u8,
    // A row of the pattern, its left half above its right half.
    pub bits: u16,
}

// What stands where a scan found no sprite.
pub const NO_SPRITE: Sprite = Sprite {
    first: 0,
    colour: 0,
    number: 0,
    bits: 0,
};

// Attribute k of sprite n.
pub fn attribute_address(r: [u8; 8], n: usize, k: usize) -> usize
    requires { (masked r ≡ true) × (n < 32) × (k < 4) }
    ensures { result ≡ scan.attribute_address r n k }
{
    r[5] as usize * 128 + (4 * n + k)
}

// The name that a sprite's pattern goes by: with size its low two bits count as 0.
fn name_of(r: [u8; 8], name: u8) -> u8
    ensures { result ≡ name - (if large_sprites r then name % 4 else 0) }
{
    if is_large(r) { name - name % 4 } else { name }
}

// The pattern byte of a name on line l, for a sprite at y that covers the line.
#[tactic(auto, unfolding(crate::specs::Scan::sprite_pattern_address))]
pub fn sprite_pattern_address(screen: Screen, l: u8, y: u8, name: u8) -> usize
    requires { covers screen.registers l y ≡ true }
    ensures { result ≡ scan.sprite_pattern_address screen.entry.registers l y name }
{
    let r = screen.registers;
    let row = scaled(is_magnified(r), row_offset(l, y) as u16);
    r[6] as usize * 2048 + (8 * name_of(r, name) as usize + row as usize)
}

// The first column, from 32 left of the screen.
fn first_column(x: u8, c: u8) -> u16
    ensures { result ≡ scan.first_column x c }
{
    if bit(c, 7) { x as u16 } else { x as u16 + 32 }
}

fn sprite_by(n: usize, x: u8, c: u8, left: u8, right: u8) -> Sprite
    requires { n < 32 }
    ensures { result ≡ scan.sprite_by n x c left right }
{
    Sprite {
        first: first_column(x, c),
        colour: c % 16,
        number: n as u8,
        bits: u16::from_be_bytes([left, right]),
    }
}

// What is read of sprite n, which covers line l. (That it does is asked in three functions: a struct of line and Y
// would be made anew for each call.)
#[tactic(auto, using(crate::proofs::Laws::Bounds::addresses, crate::proofs::Laws::Read::as_read), unfolding(fetches::specs::Fetch::value, crate::specs::Scan::sprite_of))]
pub fn sprite_of(screen: Screen, l: u8, y: u8, n: usize) -> Sprite
    requires { (covers screen.registers l y ≡ true) × (n < 32) }
    ensures value { result ≡ value (scan.sprite_of screen.entry.registers l n y) screen.entry.vram.now }
    ensures as_read { AsRead screen.entry.registers result }
{
    let r = screen.registers;
    let vram = screen.vram;
    let x = vram[attribute_address(r, n, 1)];
    let name = vram[attribute_address(r, n, 2)];
    let c = vram[attribute_address(r, n, 3)];
    let at = sprite_pattern_address(screen, l, y, name);
    let left = vram[at];
    let right = if is_large(r) { vram[at + 16] } else { 0 };
    sprite_by(n, x, c, left, right)
}
