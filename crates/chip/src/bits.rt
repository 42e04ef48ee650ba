// Single bits of a byte, counted from the least significant.
ghost use Rattle.std.specs.Prelude.{◌≡◌, ◌<◌};
ghost use Rattle.chip.specs.Bits as bits;

// Whether bit k of x is set.
pub fn bit(x: u8, k: u8) -> bool
    requires { k < 8 }
    ensures { result ≡ bits.bit k x }
{
    (x >> k) % 2 == 1
}

// x with bit k set.
pub fn set_bit(x: u8, k: u8) -> u8
    requires { k < 8 }
    ensures { result ≡ bits.set_bit k x }
{
    x | (1u8 << k)
}
