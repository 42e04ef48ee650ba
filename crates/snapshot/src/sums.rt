// The sum of bytes that a snapshot carries.
ghost use Rattle.std.specs.Prelude.{◌≡◌};
ghost use Rattle.snapshot.specs.Format as format;

// The sum modulo 65,536, which is how a u16 wraps.
pub fn checksum(s: &[u8]) -> u16
    ensures { result ≡ format.checksum s.now }
{
    s.iter()
        .fold(0u16, |total, b| total.wrapping_add(u16::from(*b)))
}
