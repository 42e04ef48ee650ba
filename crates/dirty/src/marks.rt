// What of the sprites is dirty, told for all of them at once.
ghost use Rattle.std.specs.Prelude.{◌≡◌, true, false, ℕ, ◌+◌, ◌*◌, ◌≤◌, ◌<◌};
ghost use Rattle.chip.specs.Bits.{bit};
ghost use Rattle.dirty.specs.Marks.{attributes_at, patterns_at, CleanPart, CleanYs, Marks};

use crate::clear::bits_of;
use crate::part::part_dirty;
use chip::Screen;

// The first of the 16 bytes of the map that stand for the attribute table. (One function with
// `patterns_from` would take the register and the factor as parameters: no plainer.)
#[tactic(auto, using(crate::proofs::Laws::Tables::registers))]
pub fn attributes_from(screen: Screen) -> usize
    ensures { (result * 8 ≡ attributes_at screen.entry.registers) × (result + 16 ≤ 2048) }
{
    screen.registers[5] as usize * 16
}

// The first of the 256 bytes of the map that stand for the sprite patterns.
#[tactic(auto, using(crate::proofs::Laws::Tables::registers))]
fn patterns_from(screen: Screen) -> usize
    ensures { (result * 8 ≡ patterns_at screen.entry.registers) × (result + 256 ≤ 2048) }
{
    screen.registers[6] as usize * 256
}

// Whether no byte of the sprite patterns is dirty.
pub fn patterns_clear(screen: Screen, map: &[u8; 2048]) -> bool
    ensures { result ≡ true → CleanPart map.now (patterns_at screen.entry.registers) 2048 }
{
    !part_dirty(map, patterns_from(screen), 256)
}

// Whether no sprite's Y is dirty. A byte of the map stands for two sprites.
pub fn ys_clear(map: &[u8; 2048], from: usize) -> bool
    requires { from + 16 ≤ 2048 }
    ensures { result ≡ true → CleanYs map.now (from * 8) }
{
    bits_of(&map[from..from + 16]) & 0x11 == 0
}

// The marks of the two sprites that a byte of the map stands for.
fn pair_marks(byte: u8) -> u32
    ensures { (j k : ℕ) → j < 2 → 0 < k → k < 4 → bit j result ≡ false → bit (4 * j + k) byte ≡ false }
{
    let first: u32 = if byte & 0x0E == 0 { 0 } else { 1 };
    let second: u32 = if byte & 0xE0 == 0 { 0 } else { 2 };
    first | second
}

// The marks of all sprites.
pub fn marks_of(map: &[u8; 2048], from: usize) -> u32
    requires { from + 16 ≤ 2048 }
    ensures { Marks map.now (from * 8) result }
{
    let mut marks: u32 = 0;
    for (i, byte) in map[from..from + 16].iter().enumerate() {
        marks |= pair_marks(*byte) << (2 * i);
    }
    marks
}
