// The columns of the screen that a sprite can reach, and its bits there. Columns are counted from 32 left of the screen.
ghost use Rattle.std.specs.Prelude.{◌≡◌, ◌+◌, ◌<◌, ◌≤◌, min, max};
ghost use Rattle.sprites.specs.Pixels.{hits};
ghost use Rattle.sprites.specs.Shape as shape;

use crate::shape::{is_magnified, scaled, side};
use crate::sprite::Sprite;

// The first of the sprite's columns that can be on the screen.
pub fn first_visible(s: Sprite) -> usize
    ensures { result ≡ max s.first 32 }
{
    (s.first as usize).max(32)
}

// One past the last that can be.
pub fn end_visible(r: [u8; 8], s: Sprite) -> usize
    ensures { result ≡ min (s.first + shape.side r) 288 }
{
    (s.first as usize + side(r)).min(288)
}

// Whether the sprite's bit at column c, one of its own, is set.
#[tactic(auto, using(crate::proofs::Laws::Columns::columns))]
pub fn bit_at(r: [u8; 8], s: Sprite, c: usize) -> bool
    requires { (s.first ≤ c) × (c < s.first + shape.side r) }
    ensures { result ≡ hits r s c }
{
    let p = scaled(is_magnified(r), (c - s.first as usize) as u16);
    (s.bits >> (15 - p)) % 2 == 1
}
