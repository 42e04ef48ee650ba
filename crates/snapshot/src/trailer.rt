// The trailer: the last eight bytes, from which everything else is found.
ghost use Rattle.std.specs.Prelude.{◌≡◌, ◌≤◌, length};
ghost use Rattle.snapshot.specs.Tests.{points_back, sum_right};

use crate::sums::checksum;
use chip::low_first_at;

// The signature, and the distances back to the state (14) and to VRAM (16,398), low byte first.
pub const POINTERS: [u8; 6] = [0x56, 0x31, 0x0E, 0x00, 0x0E, 0x40];

// Whether the signature and both distances are right.
#[tactic(auto, unfolding(crate::specs::Tests::points_back))]
pub fn points_back(s: &[u8]) -> bool
    requires { 8 ≤ length s.now }
    ensures { result ≡ points_back s.now }
{
    let trailer = s.len() - 8;
    let signature = (s[trailer] == 0x56) & (s[trailer + 1] == 0x31);
    let block = low_first_at(s, trailer + 2);
    let vram = low_first_at(s, trailer + 4);
    signature & (block == 14) & (vram == 16398)
}

// Whether the sum of all bytes before it is the one that stands there.
#[tactic(auto, unfolding(crate::specs::Tests::sum_right))]
pub fn sum_is_right(s: &[u8]) -> bool
    requires { 8 ≤ length s.now }
    ensures { result ≡ sum_right s.now }
{
    let field = s.len() - 8 + 6;
    let stored = low_first_at(s, field);
    stored == checksum(&s[..field])
}
