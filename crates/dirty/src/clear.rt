// Whether a map, or a part of one, has no dirty bit.
ghost use Rattle.std.specs.Prelude.{◌≡◌, false, ℕ, ◌<◌, eqb, length, get_or};
ghost use Rattle.chip.specs.Bits.{bit};
ghost use Rattle.dirty.specs.Clear as clear;

// The bits that one of the bytes has. There is no early exit, so that many bytes can be joined at once.
pub fn bits_of(map: &[u8]) -> u8
    ensures none { eqb result 0 ≡ clear.is_clear map.now }
    ensures lacks { (k m : ℕ) → m < length map.now → bit k result ≡ false → bit k (get_or map.now m 0) ≡ false }
{
    let mut joined: u8 = 0;
    for byte in map {
        joined |= *byte;
    }
    joined
}

pub fn is_clear(map: &[u8]) -> bool
    ensures { result ≡ clear.is_clear map.now }
{
    bits_of(map) == 0
}
