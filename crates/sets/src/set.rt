// The sets of all lines.
ghost use Rattle.std.specs.Prelude.{◌≡◌, ℕ, ◌<◌, length, if◌then◌else◌, bit_or, slice_index};
ghost use Rattle.chip.specs.Bits as bits;
ghost use Rattle.sprites.specs.Shape as shape;
ghost use Rattle.sets.specs.Sets.{Sets};

use chip::Screen;
use sprites::{attribute_address, is_terminator, side};

// Puts a sprite's bit into every set of a run of lines.
fn add_run(part: &mut [u32], one: u32)
    ensures part_len_unchanged { length part.new ≡ length part.old }
    ensures by_index { (i : ℕ) → i < length part.old → slice_index part.new i ≡ bit_or (slice_index part.old i) one }
{
    for x in part.iter_mut() {
        *x |= one;
    }
}

// Puts sprite n, which stands at y, into the set of each line that it covers, line by line: they may go over the bottom edge, to
// the top.
fn add_by_lines(sets: &mut [u32; 192], r: [u8; 8], y: u8, n: u32)
    requires { n < 32 }
    ensures { (l : ℕ) → l < 192 → slice_index sets.new l ≡ (if shape.covers r l y then bits.set_bit n (slice_index sets.old l) else slice_index sets.old l) }
{
    let one = 1u32 << n;
    let first = y.wrapping_add(1);
    for d in 0..side(r) {
        let l = first.wrapping_add(d as u8);
        if l < 192 {
            sets[l as usize] |= one;
        }
    }
}

// Puts sprite n, which stands at y, into the set of each line that it covers. They begin below y, and are mostly one run of
// lines, which needs no test of each.
fn add_sprite(sets: &mut [u32; 192], r: [u8; 8], y: u8, n: u32)
    requires { n < 32 }
    ensures { (l : ℕ) → l < 192 → slice_index sets.new l ≡ (if shape.covers r l y then bits.set_bit n (slice_index sets.old l) else slice_index sets.old l) }
{
    let first = y.wrapping_add(1) as usize;
    let height = side(r);
    if first + height <= 192 {
        add_run(&mut sets[first..first + height], 1u32 << n);
    } else {
        add_by_lines(sets, r, y, n);
    }
}

#[tactic(auto, using(sprites::proofs::Laws::Bounds::addresses, crate::proofs::Laws::Sets::ends))]
pub fn sets_of(screen: Screen) -> [u32; 192]
    ensures { Sets screen.entry.registers screen.entry.vram.now result }
{
    let r = screen.registers;
    let mut sets = [0u32; 192];
    for n in 0..32 {
        let y = screen.vram[attribute_address(r, n, 0)];
        if is_terminator(y) {
            return sets;
        }
        add_sprite(&mut sets, r, y, n as u32);
    }
    sets
}
