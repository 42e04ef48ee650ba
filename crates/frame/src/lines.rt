// Redrawing the lines that are due.
ghost use Rattle.std.specs.Prelude.{◌≡◌};
ghost use Rattle.chip.specs.Lists.{tabulate};
ghost use Rattle.chip.specs.Modes.{mode_of};
ghost use Rattle.dirty.specs.Rows.{RowBits};
ghost use Rattle.redraw.specs.Row.{LineSets};
ghost use Rattle.frame.specs.Due as due;
ghost use Rattle.frame.specs.Lines.{lines_end_to_end, count_below};
ghost use Rattle.frame.specs.Rows.{due_bit, line_by, note_by_rows};

use chip::{Mode, Screen};
use dirty::{dirty_rows, is_clear};
use redraw::{Drawing, redraw_row};
use rows::{Brush, byte_words};
use scanline::has_sprites;
use sets::sets_of;
use words::MaskTable;

// Which lines are "due", as the scope calls it, a byte for each row of names. With the redraw mark set all are, and no map is read;
// with it and the map clear none is, and no line is looked at.
fn due_rows(redraw: bool, screen: Screen, map: &[u8; 2048]) -> [u8; 24]
    ensures { RowBits result (due.due redraw screen.entry.registers screen.entry.vram.now map.now) }
{
    if redraw {
        return [255u8; 24];
    }
    if is_clear(map) {
        return [0u8; 24];
    }
    dirty_rows(screen, map)
}

// The sets of all lines' sprites.
fn line_sets(mode: Mode, screen: Screen) -> [u32; 192]
    requires { mode ≡ mode_of screen.registers }
    ensures { LineSets screen.entry.registers screen.entry.vram.now result }
{
    if has_sprites(mode) {
        return sets_of(screen);
    }
    [0u32; 192]
}

// Redraws the lines of the rows, and counts them. The tables that all rows are drawn with are made once, and stand here: handed back by a
// function of their own they would be copied.
#[tactic(auto, using(crate::proofs::Laws::Step::by_rows))]
fn redraw_rows(rows: [u8; 24], screen: Screen, frame: &mut [u8; 49152], notes: &mut [u8; 192]) -> u8
    ensures value { result ≡ count_below 192 (due_bit rows) }
    ensures frame_after { frame.new ≡ lines_end_to_end 192 (line_by rows screen.entry.registers screen.entry.vram.now frame.old) }
    ensures notes_after { notes.new ≡ tabulate 192 (note_by_rows rows screen.entry.registers screen.entry.vram.now notes.old) }
{
    let mode = chip::mode_of(screen.registers);
    let masks = MaskTable::new();
    let brush = Brush::new(screen, &masks);
    let words = byte_words(mode, screen.registers, &masks, &brush.paints);
    let sets = line_sets(mode, screen);
    let drawing = Drawing {
        mode,
        brush,
        words: &words,
        sets: &sets,
    };
    let mut beside = [0u8; 2048];
    let mut redrawn: u8 = 0;
    for (row, due) in rows.iter().enumerate() {
        let at = 2048 * row;
        let first = 8 * row;
        let count = redraw_row(
            &drawing,
            row,
            *due,
            &mut beside,
            &mut frame[at..at + 2048],
            &mut notes[first..first + 8],
        );
        redrawn += count;
    }
    redrawn
}

// Redraws the due lines, and counts them. Where none is due no table is made.
#[tactic(auto, using(crate::proofs::Laws::Bits::by_bits))]
pub fn redraw_lines(
    redraw: bool,
    screen: Screen,
    map: &[u8; 2048],
    frame: &mut [u8; 49152],
    notes: &mut [u8; 192],
) -> u8
    ensures value { result ≡ due.due_count redraw screen.entry.registers screen.entry.vram.now map.now }
    ensures frame_after { frame.new ≡ due.new_frame redraw screen.entry.registers screen.entry.vram.now map.now frame.old }
    ensures notes_after { notes.new ≡ due.new_notes redraw screen.entry.registers screen.entry.vram.now map.now notes.old }
{
    let rows = due_rows(redraw, screen, map);
    if is_clear(&rows) {
        return 0;
    }
    redraw_rows(rows, screen, frame, notes)
}
