// The calls: full draw and refresh.
ghost use Rattle.std.specs.Prelude.{◌≡◌};
ghost use Rattle.frame.specs.Calls as calls;

use crate::lines::redraw_lines;
use crate::status::status_through;
use chip::{Answer, Chip, Refusal, Screen};

// The tests that both calls make.
fn tested(chip: Chip, vram: &[u8], map: &[u8], frame: &[u8], notes: &[u8]) -> Result<(), Refusal>
    ensures { result ≡ calls.draw_refusal chip vram.now map.now frame.now notes.now }
{
    if vram.len() != 16384 {
        return Err(Refusal::VramLength);
    }
    if map.len() != 2048 {
        return Err(Refusal::SliceLength);
    }
    if frame.len() != 49152 {
        return Err(Refusal::SliceLength);
    }
    if notes.len() != 192 {
        return Err(Refusal::SliceLength);
    }
    if !chip.is_well_formed() {
        return Err(Refusal::IllFormed);
    }
    Ok(())
}

// What both calls do: the tests; then what is due with this redraw mark is redrawn, status is updated by all notes, and map and
// redraw mark are cleared. Answers the count.
fn draw_due(
    chip: Chip,
    redraw: bool,
    vram: &[u8],
    map: &mut [u8],
    frame: &mut [u8],
    notes: &mut [u8],
) -> Answer
    ensures value { result ≡ calls.draw_due redraw chip vram.now map.old frame.old notes.old }
    ensures map_after { map.new ≡ calls.draw_map chip vram.now map.old frame.old notes.old }
    ensures frame_after { frame.new ≡ calls.draw_due_frame redraw chip vram.now map.old frame.old notes.old }
    ensures notes_after { notes.new ≡ calls.draw_due_notes redraw chip vram.now map.old frame.old notes.old }
{
    if let Err(refusal) = tested(chip, vram, map, frame, notes) {
        return chip.refused(refusal);
    }
    let screen = Screen::new(chip.registers, vram.try_into().unwrap());
    let Some(frame) = frame.as_mut_array() else {
        unreachable!()
    };
    let Some(notes) = notes.as_mut_array() else {
        unreachable!()
    };
    let redrawn = redraw_lines(redraw, screen, map[..].try_into().unwrap(), frame, notes);
    let mut next = chip;
    next.status = status_through(chip.status, notes);
    next.redraw = false;
    map.fill(0);
    next.accepted(redrawn)
}

// Draws every line into the frame, whatever it held, as if the redraw mark were set; notes, status, map and redraw mark are
// then those of a fresh draw.
pub fn full_draw(
    chip: Chip,
    vram: &[u8],
    map: &mut [u8],
    frame: &mut [u8],
    notes: &mut [u8],
) -> Answer
    ensures value { result ≡ calls.full_draw chip vram.now map.old frame.old notes.old }
    ensures map_after { map.new ≡ calls.draw_map chip vram.now map.old frame.old notes.old }
    ensures frame_after { frame.new ≡ calls.full_draw_frame chip vram.now map.old frame.old notes.old }
    ensures notes_after { notes.new ≡ calls.full_draw_notes chip vram.now map.old frame.old notes.old }
{
    let answer = draw_due(chip, true, vram, map, frame, notes);
    Answer {
        result: answer.result.and(Ok(0)),
        ..answer
    }
}

// Redraws the lines that are due, and answers how many.
pub fn refresh(
    chip: Chip,
    vram: &[u8],
    map: &mut [u8],
    frame: &mut [u8],
    notes: &mut [u8],
) -> Answer
    ensures value { result ≡ calls.refresh chip vram.now map.old frame.old notes.old }
    ensures map_after { map.new ≡ calls.draw_map chip vram.now map.old frame.old notes.old }
    ensures frame_after { frame.new ≡ calls.refresh_frame chip vram.now map.old frame.old notes.old }
    ensures notes_after { notes.new ≡ calls.refresh_notes chip vram.now map.old frame.old notes.old }
{
    draw_due(chip, chip.redraw, vram, map, frame, notes)
}
