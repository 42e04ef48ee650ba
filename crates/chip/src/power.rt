// Power-up and reset.
ghost use Rattle.std.specs.Prelude.{◌≡◌};
ghost use Rattle.chip.specs.Calls as calls;

use crate::refusal::{Answer, Refusal};
use crate::state::Chip;

impl Chip {
    // Power-up replaces the state, and so does not test it.
    pub fn power_up(self, vram: &mut [u8]) -> Answer
        ensures value { result ≡ calls.power_up self vram.old }
        ensures vram_after { vram.new ≡ calls.power_up_vram vram.old }
    {
        if vram.len() != 16384 {
            return self.refused(Refusal::VramLength);
        }
        vram.fill(0);
        let fresh = Chip::power_up_state();
        fresh.accepted(0)
    }

    pub fn reset(self) -> Answer
        ensures { result ≡ calls.reset self }
    {
        if !self.is_well_formed() {
            return self.refused(Refusal::IllFormed);
        }
        let mut next = self.with_waiting(None);
        next.registers[0] = 0;
        next.registers[1] = 0;
        next.status = 0;
        next.redraw = true;
        next.lost = 0;
        next.accepted(0)
    }
}
