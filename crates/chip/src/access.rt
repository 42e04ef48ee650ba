// Reading VRAM at the address, which steps.
ghost use Rattle.std.specs.Prelude.{◌≡◌, ◌≤◌};
ghost use Rattle.chip.specs.Ports.{next_address, prefetched};

use crate::state::Chip;

// The address after an access at a.
pub fn step(a: u16) -> u16
    requires { a ≤ 16383 }
    ensures { result ≡ next_address a }
{
    (a + 1) % 16384
}

impl Chip {
    // The buffer is filled from VRAM at the address, which steps.
    // Of a well-formed state each step here needs this bound alone; a type for such states would be made anew after each: no plainer.
    pub fn prefetch(mut self, vram: &[u8; 16384]) -> Chip
        requires { self.address ≤ 16383 }
        ensures { result ≡ prefetched vram.now self }
    {
        let at = self.address;
        self.buffer = vram[at as usize];
        self.address = step(at);
        self
    }
}
