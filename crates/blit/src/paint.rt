// Painting a sprite over a line, eight pixels at a time.
ghost use Rattle.std.specs.Prelude.{◌≡◌, cond, ◌+◌, ◌-◌, ◌≤◌, eqb, get_or};
ghost use Rattle.chip.specs.Bits.{bit};
ghost use Rattle.chip.specs.Lists.{tabulate};
ghost use Rattle.planes.specs.Painted.{Painted};
ghost use Rattle.sprites.specs.Pixels.{visible, hits};
ghost use Rattle.sprites.specs.Shape as shape;
ghost use Rattle.words.specs.Words.{byte_of};
ghost use Rattle.blit.specs.Wide.{WideRow};

use sprites::{Sprite, paint_sprite, side};
use words::{MaskTable, blend, put_word, repeated, word_at};

// Eight columns from a place on: each where the pattern has a set bit takes a byte of the word.
fn paint_eight(line: &mut [u8; 256], masks: &MaskTable, at: usize, pattern: u8, word: u64)
    requires { at + 8 ≤ 256 }
    ensures { Painted line.new line.old at 8 (λ k. cond (bit (7 - k) pattern) (byte_of k word) (get_or line.old (at + k) 0)) }
{
    let behind = word_at(line, at);
    put_word(line, at, blend(masks.of(pattern), word, behind));
}

// A sprite all of whose columns are on the screen.
fn paint_words(line: &mut [u8; 256], masks: &MaskTable, r: [u8; 8], s: Sprite, row: u32)
    requires { WideRow r s row × (32 ≤ s.first) × (s.first + shape.side r ≤ 288) }
    ensures { line.new ≡ tabulate 256 (λ x. cond (hits r s (visible x)) s.colour (get_or line.old x 0)) }
{
    let colour = repeated(s.colour);
    let first = s.first as usize - 32;
    let patterns = row.to_be_bytes();
    for (j, pattern) in patterns[..side(r) / 8].iter().enumerate() {
        paint_eight(line, masks, first + 8 * j, *pattern, colour);
    }
}

// Any sprite: colour 0 paints nothing, and one that reaches over an edge is painted column by column.
pub fn paint_found(line: &mut [u8; 256], masks: &MaskTable, r: [u8; 8], s: Sprite, row: u32)
    requires { WideRow r s row }
    ensures { line.new ≡ tabulate 256 (λ x. cond (eqb (cond (hits r s (visible x)) s.colour 0) 0) (get_or line.old x 0) s.colour) }
{
    let first = s.first as usize;
    if s.colour == 0 || first < 32 || 288 < first + side(r) {
        paint_sprite(line, r, s, s.colour);
    } else {
        paint_words(line, masks, r, s, row);
    }
}
