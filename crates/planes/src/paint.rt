// Painting a cell's pixels.
ghost use Rattle.std.specs.Prelude.{◌≡◌, cond, ◌+◌, ◌-◌, ◌≤◌};
ghost use Rattle.chip.specs.Bits as bits;
ghost use Rattle.planes.specs.Cells.{cell_width};
ghost use Rattle.planes.specs.Painted.{Painted};

use chip::{Mode, bit};

// One of two bytes. A function of its own: an `if` at its place in the loop over a sprite's columns, tried, became a branch for each.
pub fn choose(set: bool, one: u8, zero: u8) -> u8
    ensures { result ≡ cond set one zero }
{
    if set { one } else { zero }
}

// The first WIDTH bits of a pattern, from the left: 1 bits as one byte, 0 bits as the other. With the count known no loop is left.
fn paint_cell<const WIDTH: usize>(line: &mut [u8; 256], at: usize, pattern: u8, one: u8, zero: u8)
    requires { (at + WIDTH ≤ 256) × (WIDTH ≤ 8) }
    ensures { Painted line.new line.old at WIDTH (λ k. cond (bits.bit (7 - k) pattern) one zero) }
{
    for k in 0..WIDTH {
        line[at + k] = choose(bit(pattern, (7 - k) as u8), one, zero);
    }
}

// A cell of either width, by the mode.
pub fn paint_pattern(line: &mut [u8; 256], at: usize, mode: Mode, pattern: u8, one: u8, zero: u8)
    requires { at + cell_width mode ≤ 256 }
    ensures { Painted line.new line.old at (cell_width mode) (λ k. cond (bits.bit (7 - k) pattern) one zero) }
{
    match mode {
        Mode::Blank | Mode::GraphicsI | Mode::GraphicsII | Mode::Multicolor => {
            paint_cell::<8>(line, at, pattern, one, zero);
        }
        Mode::Text => paint_cell::<6>(line, at, pattern, one, zero),
    }
}
