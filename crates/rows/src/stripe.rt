// Painting eight columns of eight lines, which stand end to end.
ghost use Rattle.std.specs.Prelude.{◌≡◌, ℕ, cond, ◌+◌, ◌-◌, ◌/◌, ◌%◌, ◌≤◌, ◌<◌, ltb, get_or};
ghost use Rattle.chip.specs.Bits.{bit};
ghost use Rattle.rows.specs.Stripes.{Striped};
ghost use Rattle.words.specs.Words.{byte_of};

use crate::brush::{Brush, coloured_word, pattern_word};
use words::put_word;

// Eight columns of eight lines: on line k those of the word that is given for k.
fn paint_lines<F: Fn(usize) -> u64>(part: &mut [u8; 2048], at: usize, word: F)
    requires { (at + 8 ≤ 256) × ((k : ℕ) → k < 8 → F.pre word k) }
    ensures { (f : ℕ → ℕ → ℕ) → ((k w j : ℕ) → k < 8 → F.post word k w → j < 8 → byte_of j w ≡ f k j) → Striped part.new part.old at f }
{
    for k in 0..8 {
        put_word(part, 256 * k + at, word(k));
    }
}

// The eight pattern bytes from p on, one a line, in two colours.
pub fn paint_patterns(
    part: &mut [u8; 2048],
    at: usize,
    brush: &Brush,
    p: usize,
    one: u64,
    zero: u64,
)
    requires { (at + 8 ≤ 256) × (p + 8 ≤ 16384) }
    ensures { Striped part.new part.old at (λ k j. cond (bit (7 - j) (get_or brush.now.screen.vram.now (p + k) 0)) (byte_of j one) (byte_of j zero)) }
{
    let vram = brush.screen.vram;
    let masks = brush.masks;
    paint_lines(part, at, |k| pattern_word(masks, vram[p + k], one, zero));
}

// The words of the eight bytes from p on, one a line.
pub fn paint_bytes(
    part: &mut [u8; 2048],
    at: usize,
    vram: &[u8; 16384],
    p: usize,
    words: &[u64; 256],
)
    requires { (at + 8 ≤ 256) × (p + 8 ≤ 16384) }
    ensures { Striped part.new part.old at (λ k j. byte_of j (get_or words.now (get_or vram.now (p + k) 0) 0)) }
{
    paint_lines(part, at, |k| words[vram[p + k] as usize]);
}

// The eight pattern bytes from p on, each in the two colours of a byte from c on.
pub fn paint_coloured(part: &mut [u8; 2048], at: usize, brush: &Brush, p: usize, c: usize)
    requires { (at + 8 ≤ 256) × (p + 8 ≤ 16384) × (c + 8 ≤ 16384) }
    ensures { Striped part.new part.old at (λ k j. cond (bit (7 - j) (get_or brush.now.screen.vram.now (p + k) 0)) (byte_of j (get_or brush.now.paints (get_or brush.now.screen.vram.now (c + k) 0 / 16) 0)) (byte_of j (get_or brush.now.paints (get_or brush.now.screen.vram.now (c + k) 0 % 16) 0))) }
{
    let vram = brush.screen.vram;
    let masks = brush.masks;
    let paints = &brush.paints;
    paint_lines(
        part,
        at,
        |k| coloured_word(masks, paints, vram[p + k], vram[c + k]),
    );
}

// One word on the upper four lines, and another on the lower four.
pub fn paint_blocks(part: &mut [u8; 2048], at: usize, upper: u64, lower: u64)
    requires { at + 8 ≤ 256 }
    ensures { Striped part.new part.old at (λ k j. cond (ltb k 4) (byte_of j upper) (byte_of j lower)) }
{
    paint_lines(part, at, |k| if k < 4 { upper } else { lower });
}
