// The map's bytes of a row of names, joined: all eight lines at once.
ghost use Rattle.std.specs.Prelude.{◌≡◌, cond, ◌+◌, ◌*◌, ◌/◌, ◌≤◌, ◌<◌, ltb, length, get_or};
ghost use Rattle.std.specs.List.{list_any};
ghost use Rattle.chip.specs.Bits.{bit};
ghost use Rattle.chip.specs.Map.{is_dirty};
ghost use Rattle.chip.specs.Ranges.{any_below};
ghost use Rattle.dirty.specs.Plane.{ByteBits, byte_shown};

use chip::{Mode, bit, is_dirty};

// A name's eight bytes of a table have their bits in one byte of the map, base + name. There is no early exit, so that a cell takes
// no test.
pub fn joined(names: &[u8], map: &[u8], base: usize) -> u8
    requires { base + 256 ≤ length map.now }
    ensures { ByteBits result (λ k. any_below (length names.now) (λ i. bit k (get_or map.now (base + get_or names.now i 0) 0))) }
{
    let mut b: u8 = 0;
    for name in names {
        b |= map[base + *name as usize];
    }
    b
}

// Eight names share a byte of colours in Graphics I, which all eight lines show.
pub fn shared_dirty(names: &[u8], map: &[u8], base: usize) -> bool
    requires { (base + 4 ≤ length map.now) × (length map.now ≤ 2048) }
    ensures { result ≡ list_any (λ name. is_dirty map.now (8 * base + name / 8)) names.now }
{
    names
        .iter()
        .any(|name| is_dirty(map, 8 * base + *name as usize / 8))
}

// Four lines with one answer, and four with another.
fn halves(upper: bool, lower: bool) -> u8
    ensures { ByteBits result (λ k. cond (ltb k 4) upper lower) }
{
    match (upper, lower) {
        (false, false) => 0,
        (true, false) => 15,
        (false, true) => 240,
        (true, true) => 255,
    }
}

// The bits of the bytes that the lines of a row show of a pattern's eight: in Multicolor only two of them, on four lines each.
pub fn shown(mode: Mode, row: usize, b: u8) -> u8
    requires { row < 24 }
    ensures { ByteBits result (λ k. bit (byte_shown mode (8 * row + k)) b) }
{
    match mode {
        Mode::Multicolor => {
            let first = (row % 4 * 2) as u8;
            halves(bit(b, first), bit(b, first + 1))
        }
        Mode::Blank | Mode::GraphicsI | Mode::GraphicsII | Mode::Text => b,
    }
}
