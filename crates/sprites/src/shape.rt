// How large sprites are, and which of them cover a line.
ghost use Rattle.std.specs.Prelude.{◌≡◌, ◌<◌, ◌==◌};
ghost use Rattle.chip.specs.Modes.{large_sprites, magnified};
ghost use Rattle.sprites.specs.Shape as shape;

use chip::bit;

// Two functions for two bits of register 1, as `large_sprites` and `magnified` are two definitions.
pub fn is_large(r: [u8; 8]) -> bool
    ensures { result ≡ large_sprites r }
{
    bit(r[1], 1)
}

pub fn is_magnified(r: [u8; 8]) -> bool
    ensures { result ≡ magnified r }
{
    bit(r[1], 0)
}

// The height and width of a sprite.
pub fn side(r: [u8; 8]) -> usize
    ensures { result ≡ shape.side r }
{
    let bits = if is_large(r) { 16 } else { 8 };
    if is_magnified(r) { bits * 2 } else { bits }
}

// A count of lines or columns in pattern rows or bits. 16 bits wide, as a row of bits is.
pub fn scaled(magnified: bool, d: u16) -> u16
    ensures { result ≡ shape.scaled magnified d }
{
    if magnified { d / 2 } else { d }
}

// How many lines line l lies below the sprite's first, modulo 256: so a sprite can enter over the top edge.
pub fn row_offset(l: u8, y: u8) -> u8
    ensures { result ≡ shape.row_offset l y }
{
    l.wrapping_sub(y).wrapping_sub(1)
}

// Whether a sprite at y ends the scan.
pub fn is_terminator(y: u8) -> bool
    ensures { result ≡ (y == 208) }
{
    y == 208
}

// Whether a sprite at y covers line l.
pub fn covers(r: [u8; 8], l: u8, y: u8) -> bool
    ensures { result ≡ shape.covers r l y }
{
    (row_offset(l, y) as usize) < side(r)
}
