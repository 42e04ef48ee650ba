// The pattern plane of one line, a word of eight pixels for each cell.
ghost use Rattle.std.specs.Prelude.{◌≡◌, ◌+◌, ◌*◌, ◌<◌};
ghost use Rattle.chip.specs.Lists.{tabulate};
ghost use Rattle.chip.specs.declared.mode.Mode.TheVariants.{Text};
ghost use Rattle.planes.specs.Cells.{cells_in, cell_width, margin};
ghost use Rattle.rows.specs.Lines.{LineSettled};
ghost use Rattle.rows.specs.Rows.{plane_pixel};

use crate::brush::{Brush, coloured_word};
use chip::Mode;
use planes::{behind_planes, cell_of, cell_width, cells_in, margin_of};
use words::put_word;

// The cells of a line, each painted with eight columns. Of a narrower cell's the next cell covers the last, or the margin does.
fn draw_line_cells(mode: Mode, brush: &Brush, l: usize, line: &mut [u8; 256])
    requires { (l < 192) × LineSettled line.old (plane_pixel mode brush.now.screen.registers brush.now.screen.vram.now l) (margin mode) }
    ensures { LineSettled line.new (plane_pixel mode brush.now.screen.registers brush.now.screen.vram.now l) (margin mode + cells_in mode * cell_width mode) }
{
    let screen = brush.screen;
    let masks = brush.masks;
    let paints = &brush.paints;
    let count = cells_in(mode);
    let width = cell_width(mode);
    let mut at = margin_of(mode);
    for i in 0..count {
        let cell = cell_of(mode, screen, l, i);
        let word = coloured_word(masks, paints, cell.pattern, cell.colours);
        put_word(line, at, word);
        at += width;
    }
}

fn draw_text_line(brush: &Brush, l: usize, line: &mut [u8; 256])
    requires { l < 192 }
    ensures { line.new ≡ tabulate 256 (plane_pixel Text brush.now.screen.registers brush.now.screen.vram.now l) }
{
    let margin = brush.paints[0];
    put_word(line, 0, margin);
    draw_line_cells(Mode::Text, brush, l, line);
    put_word(line, 248, margin);
}

// The pattern plane of one line over the backdrop. Each mode is named where its cells are drawn, so that no cell asks for it.
pub fn draw_plane_line(mode: Mode, brush: &Brush, l: usize, line: &mut [u8; 256])
    requires { l < 192 }
    ensures { line.new ≡ tabulate 256 (plane_pixel mode brush.now.screen.registers brush.now.screen.vram.now l) }
{
    match mode {
        Mode::Blank => line.fill(behind_planes(brush.screen.registers)),
        Mode::GraphicsI => draw_line_cells(Mode::GraphicsI, brush, l, line),
        Mode::GraphicsII => draw_line_cells(Mode::GraphicsII, brush, l, line),
        Mode::Multicolor => draw_line_cells(Mode::Multicolor, brush, l, line),
        Mode::Text => draw_text_line(brush, l, line),
    }
}
