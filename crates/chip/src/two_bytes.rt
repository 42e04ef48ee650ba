// Numbers as two bytes, the low one first.
ghost use Rattle.std.specs.Prelude.{◌≡◌, ◌+◌, ◌<◌, length};
ghost use Rattle.chip.specs.TwoBytes.{low_first_at};

// The number in the two bytes from i on.
pub fn low_first_at(s: &[u8], i: usize) -> u16
    requires { i + 1 < length s.now }
    ensures { result ≡ low_first_at s.now i }
{
    u16::from_le_bytes([s[i], s[i + 1]])
}
