// The display mode that registers 0 and 1 choose.
ghost use Rattle.std.specs.Prelude.{◌≡◌};
ghost use Rattle.chip.specs.Modes.{mode_by, mode_of};

use crate::bits::bit;

#[derive(Clone, Copy, PartialEq, Eq, Debug)]
pub enum Mode {
    // Display off, or two or more mode bits: neither pattern nor sprites.
    Blank,
    GraphicsI,
    GraphicsII,
    Multicolor,
    Text,
}

// The mode by M1, M2 and M3.
fn mode_by(m1: bool, m2: bool, m3: bool) -> Mode
    ensures { result ≡ mode_by m1 m2 m3 }
{
    match (m1, m2, m3) {
        (false, false, false) => Mode::GraphicsI,
        (false, false, true) => Mode::GraphicsII,
        (false, true, false) => Mode::Multicolor,
        (true, false, false) => Mode::Text,
        _ => Mode::Blank,
    }
}

#[tactic(auto, unfolding(crate::specs::Modes::mode_of))]
pub fn mode_of(registers: [u8; 8]) -> Mode
    ensures { result ≡ mode_of registers }
{
    if !bit(registers[1], 6) {
        return Mode::Blank;
    }
    mode_by(
        bit(registers[1], 4),
        bit(registers[1], 3),
        bit(registers[0], 1),
    )
}
