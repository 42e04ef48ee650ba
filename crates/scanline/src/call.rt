// The call that draws a line.
ghost use Rattle.std.specs.Prelude.{◌≡◌};
ghost use Rattle.scanline.specs.Calls as calls;

use crate::draw::draw_row_with_origins;
use crate::note::status_after;
use chip::{Answer, Chip, Refusal, Screen};

// Draws one line into a lent slice, and the codes of its pixels' origins into another. The line's note updates status.
#[tactic(auto, using(crate::proofs::Laws::Tests::tests))]
pub fn draw_line(
    mut chip: Chip,
    vram: &[u8],
    line: &mut [u8],
    origins: &mut [u8],
    number: u32,
) -> Answer
    ensures value { result ≡ calls.draw_line chip vram.now line.old origins.old number }
    ensures line_after { line.new ≡ calls.draw_line_line chip vram.now line.old origins.old number }
    ensures origins_after { origins.new ≡ calls.draw_line_origins chip vram.now line.old origins.old number }
{
    let Some(vram) = vram.as_array::<16384>() else {
        return chip.refused(Refusal::VramLength);
    };
    let Some(line) = line.as_mut_array::<256>() else {
        return chip.refused(Refusal::SliceLength);
    };
    let Some(origins) = origins.as_mut_array::<256>() else {
        return chip.refused(Refusal::SliceLength);
    };
    if !chip.is_well_formed() {
        return chip.refused(Refusal::IllFormed);
    }
    if 191 < number {
        return chip.refused(Refusal::LineNumber);
    }
    let screen = Screen::new(chip.registers, vram);
    let note = draw_row_with_origins(screen, number as u8, line, origins);
    chip.status = status_after(chip.status, note);
    chip.accepted(0)
}
