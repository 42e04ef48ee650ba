// Drawing a line and printing it.
ghost use Rattle.std.specs.Prelude.{◌≡◌};
ghost use Rattle.scanline.specs.Colours.{draw_colours, draw_colours_line};
ghost use Rattle.scenes.specs.Shown.{state_of};

use chip::Chip;
use std::io::Stdout;

// A state with these registers and this status.
fn chip_of(r: [u8; 8], status: u8) -> Chip
    ensures { result ≡ state_of r status }
{
    Chip {
        registers: r,
        address: 0,
        buffer: 0,
        waiting: None,
        status,
        redraw: false,
        lost: 0,
    }
}

// The runs of equal neighbours: a space, the count, a star and the colour of each.
fn print_runs(out: Stdout, line: &[u8]) {
    for run in line.chunk_by(|a, b| a == b) {
        if let Some(colour) = run.first() {
            let _ = print!(out; " {}*{colour}", run.len());
        }
    }
}

// Draws a line into a lent slice, and answers the status after it.
fn draw(r: [u8; 8], status: u8, vram: &[u8], line: &mut [u8], number: u32) -> u8
    ensures value { result ≡ (draw_colours (state_of r status) vram.now line.old number).chip.status }
    ensures line_after { line.new ≡ draw_colours_line (state_of r status) vram.now line.old number }
{
    let answer = scanline::draw_colours(chip_of(r, status), vram, line, number);
    answer.chip.status
}

fn print_line(out: Stdout, label: &[u8], number: u32, line: &[u8], status: u8) {
    let _ = out.write_all(label);
    let _ = print!(out; ", line {number}:");
    print_runs(out, line);
    let _ = println!(out; ", status {status:02x}");
}

// Draws a line from a status, and prints label, number, runs and the status after.
pub fn show(out: Stdout, label: &[u8], r: [u8; 8], status: u8, vram: &[u8], number: u32) {
    let mut line = [0u8; 256];
    let after = draw(r, status, vram, &mut line, number);
    print_line(out, label, number, &line, after);
}
