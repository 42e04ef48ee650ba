// Redrawing the lines that are due among the eight of one row of names.
ghost use Rattle.std.specs.Prelude.{◌≡◌, true, ℕ, ◌+◌, ◌*◌, ◌<◌, length, get_or};
ghost use Rattle.rows.specs.Rows.{plane_row};
ghost use Rattle.redraw.specs.declared.line.Planes.TheVariants.{Here, Beside};
ghost use Rattle.redraw.specs.Row.{row_lines, row_notes, row_count};

use crate::drawing::Drawing;
use crate::line::{Planes, redraw_line};
use chip::bit;
use rows::draw_plane_row;

// Draws the pattern planes of a row's lines: into the frame where all of them are due, beside it where several are. For a single
// line that would not pay.
fn draw_planes(
    drawing: &Drawing,
    row: usize,
    due: u8,
    beside: &mut [u8; 2048],
    part: &mut [u8; 2048],
) -> Planes
    requires { (due ≡ 0 → ⊥) × (row < 24) }
    ensures due_value { result ≡ Here → (due ≡ 255) × (part.new ≡ plane_row drawing.now.mode drawing.now.brush.screen.registers drawing.now.brush.screen.vram.now row) }
    ensures part_unchanged { (result ≡ Here → ⊥) → part.new ≡ part.old }
    ensures beside_after { result ≡ Beside → beside.new ≡ plane_row drawing.now.mode drawing.now.brush.screen.registers drawing.now.brush.screen.vram.now row }
{
    let words = drawing.words;
    if due == 255 {
        draw_plane_row(drawing.mode, &drawing.brush, row, words, part);
        return Planes::Here;
    }
    if (due & (due - 1)) != 0 {
        draw_plane_row(drawing.mode, &drawing.brush, row, words, beside);
        return Planes::Beside;
    }
    Planes::Nowhere
}

// The lines of a row one after another, and how many were due. (Part and notes are two parameters: a struct of lent slices would have a
// clause for each of them all the same.)
#[tactic(auto, using(crate::proofs::Laws::Row::redrawing))]
fn redraw_each(
    planes: Planes,
    drawing: &Drawing,
    row: usize,
    due: u8,
    beside: &[u8; 2048],
    part: &mut [u8; 2048],
    notes: &mut [u8; 8],
) -> u8
    requires { (row < 24) × (planes ≡ Here → part.old ≡ plane_row drawing.now.mode drawing.now.brush.screen.registers drawing.now.brush.screen.vram.now row) × (planes ≡ Beside → beside.now ≡ plane_row drawing.now.mode drawing.now.brush.screen.registers drawing.now.brush.screen.vram.now row) }
    ensures value { result ≡ row_count due }
    ensures part_after { part.new ≡ row_lines drawing.now.brush.screen.registers drawing.now.brush.screen.vram.now row due part.old }
    ensures notes_after { notes.new ≡ row_notes drawing.now.brush.screen.registers drawing.now.brush.screen.vram.now row due notes.old }
{
    let mut redrawn: u8 = 0;
    for k in 0..8 {
        let at = 256 * k;
        let l = 8 * row + k;
        let is_due = bit(due, k as u8);
        notes[k] = redraw_line(
            planes,
            is_due,
            drawing,
            l as u8,
            beside[at..at + 256].try_into().unwrap(),
            &mut part[at..at + 256],
            notes[k],
        );
        redrawn += is_due as u8;
    }
    redrawn
}

// Whether no sprite covers a line of the row.
fn no_sprites(sets: &[u32; 192], row: usize) -> bool
    requires { row < 24 }
    ensures { result ≡ true → (k : ℕ) → k < 8 → get_or sets.now (8 * row + k) 0 ≡ 0 }
{
    let first = 8 * row;
    sets[first..first + 8].iter().all(|set| *set == 0)
}

// All lines of a row that no sprite covers: their planes are the lines.
#[tactic(auto, using(crate::proofs::Laws::Whole::plain))]
fn redraw_plain(drawing: &Drawing, row: usize, part: &mut [u8; 2048], notes: &mut [u8; 8])
    requires { (row < 24) × ((k : ℕ) → k < 8 → get_or drawing.now.sets.now (8 * row + k) 0 ≡ 0) }
    ensures part_after { part.new ≡ row_lines drawing.now.brush.screen.registers drawing.now.brush.screen.vram.now row 255 part.old }
    ensures notes_after { notes.new ≡ row_notes drawing.now.brush.screen.registers drawing.now.brush.screen.vram.now row 255 notes.old }
{
    draw_plane_row(drawing.mode, &drawing.brush, row, drawing.words, part);
    notes.fill(32);
}

// The due lines of a row, and how many there are.
#[tactic(auto, using(crate::proofs::Laws::Still::still, crate::proofs::Laws::Whole::whole))]
fn redraw_due(
    drawing: &Drawing,
    row: usize,
    due: u8,
    beside: &mut [u8; 2048],
    part: &mut [u8; 2048],
    notes: &mut [u8; 8],
) -> u8
    requires { row < 24 }
    ensures value { result ≡ row_count due }
    ensures part_after { part.new ≡ row_lines drawing.now.brush.screen.registers drawing.now.brush.screen.vram.now row due part.old }
    ensures notes_after { notes.new ≡ row_notes drawing.now.brush.screen.registers drawing.now.brush.screen.vram.now row due notes.old }
{
    if due == 0 {
        return 0;
    }
    if (due == 255) & no_sprites(drawing.sets, row) {
        redraw_plain(drawing, row, part, notes);
        return 8;
    }
    let planes = draw_planes(drawing, row, due, beside, part);
    redraw_each(planes, drawing, row, due, beside, part, notes)
}

// Redraws the due lines of a row, and answers how many there are. The lent parts become arrays here: if the caller made arrays of
// them, no proof would know what was written.
pub fn redraw_row(
    drawing: &Drawing,
    row: usize,
    due: u8,
    beside: &mut [u8; 2048],
    part: &mut [u8],
    notes: &mut [u8],
) -> u8
    requires { (row < 24) × (length part.old ≡ 2048) × (length notes.old ≡ 8) }
    ensures value { result ≡ row_count due }
    ensures part_after { part.new ≡ row_lines drawing.now.brush.screen.registers drawing.now.brush.screen.vram.now row due part.old }
    ensures notes_after { notes.new ≡ row_notes drawing.now.brush.screen.registers drawing.now.brush.screen.vram.now row due notes.old }
{
    let Some(part) = part.as_mut_array() else {
        unreachable!()
    };
    let Some(notes) = notes.as_mut_array() else {
        unreachable!()
    };
    redraw_due(drawing, row, due, beside, part, notes)
}
