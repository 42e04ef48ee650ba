// The map of written VRAM bytes, one dirty bit for each.
ghost use Rattle.std.specs.Prelude.{◌≡◌, ◌<◌, ◌/◌, length};
ghost use Rattle.chip.specs.Map.{set_dirty, is_dirty};

use crate::bits::{bit, set_bit};

// Sets VRAM byte i's bit.
pub fn set_dirty(map: &mut [u8], i: usize)
    requires { i / 8 < length map.old }
    ensures { map.new ≡ set_dirty map.old i }
{
    let at = i / 8;
    map[at] = set_bit(map[at], (i % 8) as u8);
}

// Whether VRAM byte i's bit is set.
pub fn is_dirty(map: &[u8], i: usize) -> bool
    requires { i / 8 < length map.now }
    ensures { result ≡ is_dirty map.now i }
{
    bit(map[i / 8], (i % 8) as u8)
}
