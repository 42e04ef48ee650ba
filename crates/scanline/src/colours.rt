// A line drawn by its colours alone, where no slice is lent for origins.
ghost use Rattle.std.specs.Prelude.{◌≡◌};
ghost use Rattle.scanline.specs.Colours as calls;

use crate::draw::draw_row;
use crate::note::status_after;
use chip::{Answer, Chip, Refusal, Screen};

// The tests stand here again: `draw_line` has that of the slice for origins in their midst, so a function of both calls would need its
// length as a parameter, with one made up here.
#[tactic(auto, using(crate::proofs::Laws::Tests::tests))]
pub fn draw_colours(mut chip: Chip, vram: &[u8], line: &mut [u8], number: u32) -> Answer
    ensures value { result ≡ calls.draw_colours chip vram.now line.old number }
    ensures line_after { line.new ≡ calls.draw_colours_line chip vram.now line.old number }
{
    let Some(vram) = vram.as_array::<16384>() else {
        return chip.refused(Refusal::VramLength);
    };
    let Some(line) = line.as_mut_array::<256>() else {
        return chip.refused(Refusal::SliceLength);
    };
    if !chip.is_well_formed() {
        return chip.refused(Refusal::IllFormed);
    }
    if 191 < number {
        return chip.refused(Refusal::LineNumber);
    }
    let screen = Screen::new(chip.registers, vram);
    let note = draw_row(screen, number as u8, line);
    chip.status = status_after(chip.status, note);
    chip.accepted(0)
}
