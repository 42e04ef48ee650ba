// The pattern plane of a row, a loop for each mode: what differs between modes is settled before the first cell.
ghost use Rattle.std.specs.Prelude.{◌≡◌, ℕ, ◌+◌, ◌*◌, ◌≤◌, ◌<◌, length, get_or};
ghost use Rattle.chip.specs.State.{register};
ghost use Rattle.chip.specs.declared.mode.Mode.TheVariants.{GraphicsI, GraphicsII, Multicolor, Text};
ghost use Rattle.rows.specs.Rows.{plane_row, ByteWords};

use crate::brush::Brush;
use crate::stripe::{paint_blocks, paint_bytes, paint_coloured, paint_patterns};
use chip::{Mode, Screen};
use planes::behind_planes;

// So many names, from a place in the name table on.
fn names_from<'a>(screen: Screen<'a>, place: usize, count: usize) -> &'a [u8]
    requires { place + count ≤ 960 }
    ensures { (length result.now ≡ count) × ((i : ℕ) → i < count → get_or result.now i 0 ≡ get_or screen.entry.vram.now (register 2 screen.entry.registers * 1024 + place + i) 0) }
{
    let first = screen.registers[2] as usize * 1024 + place;
    let vram = screen.vram;
    &vram[first..first + count]
}

// The loops over the 32 cells of a row stay three: one function with a closure that paints a cell would lend it the part, and its
// contract, which speaks of any such closure, would be longer than the loops.
#[tactic(auto, using(crate::proofs::Laws::Cells::registers))]
fn draw_graphics_one(brush: &Brush, row: usize, part: &mut [u8; 2048])
    requires { row < 24 }
    ensures { part.new ≡ plane_row GraphicsI brush.now.screen.registers brush.now.screen.vram.now row }
{
    let screen = brush.screen;
    let vram = screen.vram;
    let patterns = screen.registers[4] as usize * 2048;
    let colours = screen.registers[3] as usize * 64;
    for (i, name) in names_from(screen, row * 32, 32).iter().enumerate() {
        let name = *name as usize;
        let both = vram[colours + name / 8] as usize;
        paint_patterns(
            part,
            8 * i,
            brush,
            patterns + 8 * name,
            brush.paints[both / 16],
            brush.paints[both % 16],
        );
    }
}

#[tactic(auto, using(crate::proofs::Laws::Cells::registers))]
fn draw_graphics_two(brush: &Brush, row: usize, part: &mut [u8; 2048])
    requires { row < 24 }
    ensures { part.new ≡ plane_row GraphicsII brush.now.screen.registers brush.now.screen.vram.now row }
{
    let screen = brush.screen;
    let third = row / 8 * 2048;
    let patterns = screen.registers[4] as usize / 4 * 8192 + third;
    let colours = screen.registers[3] as usize / 128 * 8192 + third;
    for (i, name) in names_from(screen, row * 32, 32).iter().enumerate() {
        let name = *name as usize;
        paint_coloured(part, 8 * i, brush, patterns + 8 * name, colours + 8 * name);
    }
}

// The two bytes of a name that a row shows have four lines each. (The words are no part of the brush, since a line alone is drawn without
// them; so what they are is asked in three functions.)
#[tactic(auto, using(crate::proofs::Laws::Cells::registers))]
fn draw_multicolor(screen: Screen, row: usize, words: &[u64; 256], part: &mut [u8; 2048])
    requires { (row < 24) × ByteWords Multicolor screen.registers words.now }
    ensures { part.new ≡ plane_row Multicolor screen.entry.registers screen.entry.vram.now row }
{
    let vram = screen.vram;
    let patterns = screen.registers[4] as usize * 2048 + row % 4 * 2;
    for (i, name) in names_from(screen, row * 32, 32).iter().enumerate() {
        let name = *name as usize;
        let at = patterns + 8 * name;
        let upper = words[vram[at] as usize];
        let lower = words[vram[at + 1] as usize];
        paint_blocks(part, 8 * i, upper, lower);
    }
}

// Cells of six columns are painted with eight, of which the next cell covers two, and the margin those of the last.
#[tactic(auto, using(crate::proofs::Laws::Cells::registers))]
fn draw_text(brush: &Brush, row: usize, words: &[u64; 256], part: &mut [u8; 2048])
    requires { (row < 24) × ByteWords Text brush.now.screen.registers words.now }
    ensures { part.new ≡ plane_row Text brush.now.screen.registers brush.now.screen.vram.now row }
{
    let screen = brush.screen;
    let vram = screen.vram;
    let patterns = screen.registers[4] as usize * 2048;
    let margin = brush.paints[0];
    paint_blocks(part, 0, margin, margin);
    for (i, name) in names_from(screen, row * 40, 40).iter().enumerate() {
        let name = *name as usize;
        paint_bytes(part, 8 + 6 * i, vram, patterns + 8 * name, words);
    }
    paint_blocks(part, 248, margin, margin);
}

// The pattern plane over the backdrop on lines 8 * row to 8 * row + 7, which stand end to end in the lent part.
pub fn draw_plane_row(
    mode: Mode,
    brush: &Brush,
    row: usize,
    words: &[u64; 256],
    part: &mut [u8; 2048],
)
    requires { (row < 24) × ByteWords mode brush.now.screen.registers words.now }
    ensures { part.new ≡ plane_row mode brush.now.screen.registers brush.now.screen.vram.now row }
{
    match mode {
        Mode::Blank => part.fill(behind_planes(brush.screen.registers)),
        Mode::GraphicsI => draw_graphics_one(brush, row, part),
        Mode::GraphicsII => draw_graphics_two(brush, row, part),
        Mode::Multicolor => draw_multicolor(brush.screen, row, words, part),
        Mode::Text => draw_text(brush, row, words, part),
    }
}
