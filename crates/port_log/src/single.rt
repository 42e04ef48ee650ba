// The single call that a record names. (A run takes data writes together, in stretch.rt, and does not come here with one. State and slices
// are four parameters: a struct of lent slices would have a clause for each of them all the same.)
ghost use Rattle.std.specs.Prelude.{◌≡◌};
ghost use Rattle.port_log.specs.Single as single;

use crate::records::Operation;
use chip::{Answer, Chip};

#[tactic(auto, unfolding(crate::specs::Single::answer_by, crate::specs::Single::vram_by, crate::specs::Single::map_by, crate::specs::Single::line_by))]
pub fn make_call(
    chip: Chip,
    vram: &mut [u8],
    map: &mut [u8],
    line: &mut [u8],
    operation: Operation,
    value: u8,
) -> Answer
    ensures value { result ≡ single.answer_by operation value (single.target chip vram.old map.old line.old) }
    ensures vram_after { vram.new ≡ single.vram_by operation value (single.target chip vram.old map.old line.old) }
    ensures map_after { map.new ≡ single.map_by operation value (single.target chip vram.old map.old line.old) }
    ensures line_after { line.new ≡ single.line_by operation value (single.target chip vram.old map.old line.old) }
{
    match operation {
        Operation::DataWrite => chip.data_write(vram, map, value),
        Operation::ControlWrite => chip.control_write(vram, value),
        Operation::DataRead => chip.data_read(vram),
        Operation::StatusRead => chip.status_read(),
        Operation::DrawLine => scanline::draw_colours(chip, vram, line, value as u32),
        Operation::EndOfDisplay => chip.end_of_display(),
        Operation::Reset => chip.reset(),
    }
}
