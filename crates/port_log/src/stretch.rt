// Data writes one after another. In a loop that makes no other call the state need not go through memory between two of them.
ghost use Rattle.std.specs.Prelude.{◌≡◌, ◌+◌, ◌*◌, ◌/◌, ◌≤◌, ◌<◌, length, get_or};
ghost use Rattle.port_log.specs.Rest.{EndsAlike};

use crate::records::record_at;
use chip::Chip;

// The state after the data writes, and the place behind them.
#[derive(Clone, Copy)]
pub struct Stretch {
    pub chip: Chip,
    pub next: usize,
}

// Makes the data write at place i and those right behind it. What is left to run ends as before, whatever the line slice holds.
// (The place is counted by hand: it is answered, and that the record at i is a data write the caller has seen.)
pub fn write_stretch(
    chip: Chip,
    vram: &mut [u8],
    map: &mut [u8],
    records: &[u8],
    i: usize,
) -> Stretch
    requires { (2 * i + 1 < length records.now) × (get_or records.now (2 * i) 0 ≡ 0) }
    ensures i_lt_next { (i < result.next) × (result.next ≤ length records.now / 2) }
    ensures ends_alike { EndsAlike records.now i chip vram.old map.old result.next result.chip vram.new map.new }
{
    let count = records.len() / 2;
    let mut chip = chip;
    let mut next = i;
    loop {
        let record = record_at(records, next);
        chip = chip.data_write(vram, map, record.value).chip;
        next += 1;
        if next == count || records[2 * next] != 0 {
            return Stretch { chip, next };
        }
    }
}
