// Redrawing one line of a row.
ghost use Rattle.std.specs.Prelude.{◌≡◌, cond, ◌<◌, length};
ghost use Rattle.scanline.specs.Calls.{note_at, colours};
ghost use Rattle.redraw.specs.declared.line.Planes.TheVariants.{Here, Beside};
ghost use Rattle.redraw.specs.Row.{LineSet, plane_line};

use crate::drawing::Drawing;
use blit::draw_found;
use rows::{Brush, draw_plane_line};
use scanline::note_of;
use sets::scan_by_set;

// Where the pattern plane of a row's lines is drawn already.
#[derive(Clone, Copy)]
pub enum Planes {
    // In the frame.
    Here,
    // In lines beside the frame, from which those that are due are copied. (They are not in here: they are lent for the next row again, so
    // that this would have to give them back. What holds of each case is therefore asked in three functions.)
    Beside,
    Nowhere,
}

// The sprites over the plane of line l. Answers the note.
#[tactic(auto, using(crate::proofs::Laws::Finish::finished))]
fn finish_line(brush: &Brush, l: u8, set: u32, line: &mut [u8; 256]) -> u8
    requires { LineSet brush.now.screen.registers brush.now.screen.vram.now l set × (line.old ≡ plane_line brush.now.screen.registers brush.now.screen.vram.now l) }
    ensures value { result ≡ note_at brush.now.screen.registers brush.now.screen.vram.now l }
    ensures line_after { line.new ≡ colours brush.now.screen.registers brush.now.screen.vram.now l }
{
    if set == 0 {
        return 32;
    }
    let scan = scan_by_set(brush.screen, l, set);
    let ended = scan.ended;
    let met = draw_found(line, brush.masks, scan);
    note_of(ended, met)
}

// Brings the plane of line l into its part of the frame, where it is not there yet.
fn bring_plane(planes: Planes, drawing: &Drawing, l: u8, beside: &[u8; 256], line: &mut [u8; 256])
    requires { (l < 192) × (planes ≡ Here → line.old ≡ plane_line drawing.now.brush.screen.registers drawing.now.brush.screen.vram.now l) × (planes ≡ Beside → beside.now ≡ plane_line drawing.now.brush.screen.registers drawing.now.brush.screen.vram.now l) }
    ensures { line.new ≡ plane_line drawing.now.brush.screen.registers drawing.now.brush.screen.vram.now l }
{
    match planes {
        Planes::Here => {}
        Planes::Beside => line.copy_from_slice(beside),
        Planes::Nowhere => draw_plane_line(drawing.mode, &drawing.brush, l as usize, line),
    }
}

// If line l is due, it is drawn into its part of the frame, which becomes an array here (see `redraw_row`). Answers its note.
pub fn redraw_line(
    planes: Planes,
    due: bool,
    drawing: &Drawing,
    l: u8,
    beside: &[u8; 256],
    line: &mut [u8],
    note: u8,
) -> u8
    requires { (l < 192) × (length line.old ≡ 256) × (planes ≡ Here → line.old ≡ plane_line drawing.now.brush.screen.registers drawing.now.brush.screen.vram.now l) × (planes ≡ Beside → beside.now ≡ plane_line drawing.now.brush.screen.registers drawing.now.brush.screen.vram.now l) }
    ensures value { result ≡ cond due (note_at drawing.now.brush.screen.registers drawing.now.brush.screen.vram.now l) note }
    ensures line_after { line.new ≡ cond due (colours drawing.now.brush.screen.registers drawing.now.brush.screen.vram.now l) line.old }
{
    if !due {
        return note;
    }
    let Some(line) = line.as_mut_array() else {
        unreachable!()
    };
    bring_plane(planes, drawing, l, beside, line);
    finish_line(&drawing.brush, l, drawing.sets[l as usize], line)
}
