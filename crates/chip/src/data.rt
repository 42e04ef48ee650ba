// The data port.
ghost use Rattle.std.specs.Prelude.{◌≡◌, ◌≤◌};
ghost use Rattle.chip.specs.Ports.{data_written, stored};
ghost use Rattle.chip.specs.Map.{set_dirty};
ghost use Rattle.chip.specs.Calls as calls;

use crate::access::step;
use crate::map::set_dirty;
use crate::refusal::{Answer, Refusal};
use crate::state::Chip;

impl Chip {
    fn take_data_byte(self, vram: &mut [u8; 16384], map: &mut [u8; 2048], b: u8) -> Chip
        requires { self.address ≤ 16383 }
        ensures value { result ≡ data_written b self }
        ensures vram_after { vram.new ≡ stored b self vram.old }
        ensures map_after { map.new ≡ set_dirty map.old self.address }
    {
        let at = self.address;
        vram[at as usize] = b;
        set_dirty(map, at as usize);
        let mut written = self.drop_first();
        written.buffer = b;
        written.address = step(at);
        written
    }

    pub fn data_write(self, vram: &mut [u8], map: &mut [u8], byte: u8) -> Answer
        ensures value { result ≡ calls.data_write self vram.old map.old byte }
        ensures vram_after { vram.new ≡ calls.data_write_vram self vram.old map.old byte }
        ensures map_after { map.new ≡ calls.data_write_map self vram.old map.old }
    {
        let Some(vram) = vram.as_mut_array::<16384>() else {
            return self.refused(Refusal::VramLength);
        };
        let Some(map) = map.as_mut_array::<2048>() else {
            return self.refused(Refusal::SliceLength);
        };
        if !self.is_well_formed() {
            return self.refused(Refusal::IllFormed);
        }
        let next = self.take_data_byte(vram, map, byte);
        next.accepted(0)
    }

    pub fn data_read(self, vram: &[u8]) -> Answer
        ensures { result ≡ calls.data_read self vram.now }
    {
        let Some(vram) = vram.as_array::<16384>() else {
            return self.refused(Refusal::VramLength);
        };
        if !self.is_well_formed() {
            return self.refused(Refusal::IllFormed);
        }
        let next = self.prefetch(vram).drop_first();
        next.accepted(self.buffer)
    }
}
