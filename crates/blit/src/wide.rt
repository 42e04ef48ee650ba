// A sprite's row of bits as wide as it is shown.
ghost use Rattle.std.specs.Prelude.{◌≡◌, ℕ, ◌/◌, ◌<◌};
ghost use Rattle.chip.specs.Bits as bits;
ghost use Rattle.sprites.specs.Held.{AsRead};
ghost use Rattle.blit.specs.Wide.{WideRow};

use crate::wide_sprite::WideSprite;
use sprites::{Sprite, is_magnified};

// Each bit of a byte twice: the bits are drawn apart by halves, and each is then put beside itself.
fn doubled(byte: u8) -> u32
    ensures upper_bound { result < 65536 }
    ensures by_index { (k : ℕ) → k < 16 → bits.bit k result ≡ bits.bit (k / 2) byte }
{
    let byte = byte as u32;
    let fours = (byte | (byte << 4)) & 0x0F0F;
    let twos = (fours | (fours << 2)) & 0x3333;
    let ones = (twos | (twos << 1)) & 0x5555;
    ones * 3
}

// A sprite does not hold the registers that it was read under, hence `AsRead`: with them in each, a scan would hold them four times.
fn wide_row(r: [u8; 8], s: Sprite) -> u32
    requires { AsRead r s }
    ensures { WideRow r s result }
{
    let [left, right] = s.bits.to_be_bytes();
    if is_magnified(r) {
        doubled(left) * 65536 + doubled(right)
    } else {
        s.bits as u32 * 65536
    }
}

pub fn wide_of(r: [u8; 8], s: Sprite) -> WideSprite
    requires { AsRead r s }
    ensures { (result.sprite ≡ s) × WideRow r s result.row }
{
    WideSprite {
        sprite: s,
        row: wide_row(r, s),
    }
}
