// The control port: pairs of bytes that set the address or a register.
ghost use Rattle.std.specs.Prelude.{◌≡◌, ◌<◌, ◌≤◌};
ghost use Rattle.chip.specs.Ports.{register_written, pair_done, control};
ghost use Rattle.chip.specs.Calls as calls;

use crate::refusal::{Answer, Refusal};
use crate::state::{Chip, keep};

impl Chip {
    // Register n takes a, and the redraw mark is set if that alters it.
    fn write_register(mut self, n: usize, a: u8) -> Chip
        requires { n < 8 }
        ensures { result ≡ register_written n a self }
    {
        let new = keep(n, a);
        let old = self.registers[n];
        self.redraw = self.redraw | (new != old);
        self.registers[n] = new;
        self
    }

    // What the second byte of a pair does, once the address is set.
    fn complete(self, vram: &[u8; 16384], a: u8, b: u8) -> Chip
        requires { self.address ≤ 16383 }
        ensures { result ≡ pair_done a b vram.now self }
    {
        if 128 <= b {
            return self.write_register((b % 8) as usize, a);
        }
        if b < 64 {
            return self.prefetch(vram);
        }
        self
    }

    fn take_control_byte(self, vram: &[u8; 16384], b: u8) -> Chip
        requires { self.address ≤ 16383 }
        ensures { result ≡ control b vram.now self }
    {
        let Some(a) = self.waiting else {
            return self.with_waiting(Some(b));
        };
        let mut next = self.with_waiting(None);
        next.address = (b % 64) as u16 * 256 + a as u16;
        next.complete(vram, a, b)
    }

    pub fn control_write(self, vram: &[u8], byte: u8) -> Answer
        ensures { result ≡ calls.control_write self vram.now byte }
    {
        let Some(vram) = vram.as_array::<16384>() else {
            return self.refused(Refusal::VramLength);
        };
        if !self.is_well_formed() {
            return self.refused(Refusal::IllFormed);
        }
        let next = self.take_control_byte(vram, byte);
        next.accepted(0)
    }
}
