// Whether sprites have set bits at the same column. Rows of bits are compared as numbers: where they meet does not matter, and
// columns beside the screen count like those on it.
ghost use Rattle.std.specs.Prelude.{◌≡◌, ◌+◌, ◌*◌, ◌≤◌, ◌&&◌, take, drop};
ghost use Rattle.chip.specs.Ranges.{any_below};
ghost use Rattle.sprites.specs.Pixels.{hits, any_hits, reach};
ghost use Rattle.sprites.specs.Rows.{RowFrom};
ghost use Rattle.sprites.specs.Held.{AsRead};
ghost use Rattle.sprites.specs.Shape.{bit_width};

use crate::scan::Scan;
use crate::shape::{is_magnified, scaled};
use crate::sprite::Sprite;

// The row from column c on, which is not left of the sprite. A sprite does not hold the registers that it was read under, hence
// `AsRead`: with them in each, a scan would hold them four times.
#[tactic(auto, using(crate::proofs::Laws::Rows::rows))]
fn row_from(r: [u8; 8], s: Sprite, c: u16) -> u16
    requires { AsRead r s × (s.first ≤ c) }
    ensures { RowFrom r s c result }
{
    let by = scaled(is_magnified(r), c - s.first);
    if by < 16 { s.bits << by } else { 0 }
}

// Whether two sprites have a set bit at the same one of the columns that a row from c on has.
fn meet_from(r: [u8; 8], a: Sprite, b: Sprite, c: u16) -> bool
    requires { AsRead r a × AsRead r b × (a.first ≤ c) × (b.first ≤ c) }
    ensures { result ≡ any_below 16 (λ k. hits r a (c + k * bit_width r) && hits r b (c + k * bit_width r)) }
{
    (row_from(r, a, c) & row_from(r, b, c)) != 0
}

// Whether two sprites have a set bit at the same column. They can meet from the first column of the one further right on. A row
// from there has every column, or when magnified every second one: then a row from the next column on has the others.
fn two_meet(r: [u8; 8], a: Sprite, b: Sprite) -> bool
    requires { AsRead r a × AsRead r b }
    ensures { result ≡ any_below reach (λ c. hits r a c && hits r b c) }
{
    let c = a.first.max(b.first);
    meet_from(r, a, b, c) | meet_from(r, a, b, c + 1)
}

// Whether a sprite meets one of those that were found, from place k on.
pub fn meets_one(s: Sprite, scan: Scan, k: usize) -> bool
    requires { AsRead scan.registers s × (k ≤ scan.drawn) }
    ensures { result ≡ any_below reach (λ c. hits scan.registers s c && any_hits scan.registers (drop k (take scan.drawn scan.sprites)) c) }
{
    scan.sprites[k..scan.drawn]
        .iter()
        .any(|t| two_meet(scan.registers, s, *t))
}
