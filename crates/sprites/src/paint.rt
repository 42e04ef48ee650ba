// Painting a sprite over a line.
ghost use Rattle.std.specs.Prelude.{◌≡◌, if◌then◌else◌, nat_eq, slice_index};
ghost use Rattle.chip.specs.Lists.{tabulate};
ghost use Rattle.sprites.specs.Pixels.{visible, hits};

use crate::columns::{bit_at, end_visible, first_visible};
use crate::sprite::Sprite;
use planes::choose;

// Each column where the sprite has a set bit takes the value.
fn paint_bits(line: &mut [u8; 256], r: [u8; 8], s: Sprite, value: u8)
    ensures { line.new ≡ tabulate 256 (λ x. (if hits r s (visible x) then value else slice_index line.old x)) }
{
    for c in first_visible(s)..end_visible(r, s) {
        let x = c - 32;
        line[x] = choose(bit_at(r, s, c), value, line[x]);
    }
}

// Each column where the sprite's colour is not 0 takes the value: the colour itself, or the sprite's number.
#[tactic(auto, using(crate::proofs::Laws::Paint::painting))]
pub fn paint_sprite(line: &mut [u8; 256], r: [u8; 8], s: Sprite, value: u8)
    ensures { line.new ≡ tabulate 256 (λ x. (if nat_eq (if hits r s (visible x) then s.colour else 0) 0 then slice_index line.old x else value)) }
{
    if s.colour == 0 {
        return;
    }
    paint_bits(line, r, s, value);
}
