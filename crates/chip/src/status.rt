// Status, the end of active display and the interrupt line.
ghost use Rattle.std.specs.Prelude.{◌≡◌};
ghost use Rattle.chip.specs.Calls as calls;

use crate::bits::{bit, set_bit};
use crate::refusal::{Answer, Refusal};
use crate::state::Chip;

impl Chip {
    pub fn status_read(self) -> Answer
        ensures { result ≡ calls.status_read self }
    {
        if !self.is_well_formed() {
            return self.refused(Refusal::IllFormed);
        }
        let mut next = self.drop_first();
        next.status = self.status % 32;
        next.accepted(self.status)
    }

    pub fn end_of_display(mut self) -> Answer
        ensures { result ≡ calls.end_of_display self }
    {
        if !self.is_well_formed() {
            return self.refused(Refusal::IllFormed);
        }
        self.status = set_bit(self.status, 7);
        self.accepted(0)
    }

    pub fn interrupt_line(self) -> Answer
        ensures { result ≡ calls.interrupt_line self }
    {
        if !self.is_well_formed() {
            return self.refused(Refusal::IllFormed);
        }
        let on = bit(self.status, 7) & bit(self.registers[1], 5);
        self.accepted(on as u8)
    }
}
