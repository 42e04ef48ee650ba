// Sprites over a backdrop of colour 1: sizes, edges, order, the fifth sprite and coincidence.
use crate::fresh::on_fresh;
use crate::print::show;
use crate::put::{put, repeat};
use std::io::Stdout;

type Registers = [u8; 8];

// Graphics I with names at hex 0400, attributes at 0300 and sprite patterns at 0800; bit 1 of size for large, bit 0 for
// magnified sprites.
fn graphics(size: u8) -> Registers {
    [0x00, 0x40 + size % 4, 0x01, 0x80, 0x02, 0x06, 0x01, 0x01]
}

// Patterns 4 to 7 differ from row to row; 8 to 11 are all ones.
fn patterns(vram: &mut [u8]) {
    put(
        vram,
        0x0820,
        &[0x81, 0x42, 0x24, 0x18, 0xFF, 0xA0, 0x0B, 0x01],
    );
    put(
        vram,
        0x0828,
        &[0xC0, 0x70, 0x1C, 0x07, 0x55, 0xAA, 0x33, 0x80],
    );
    put(
        vram,
        0x0830,
        &[0x0F, 0x3C, 0xF0, 0xE1, 0x99, 0x66, 0x5A, 0xC3],
    );
    put(
        vram,
        0x0838,
        &[0x11, 0x22, 0x44, 0x88, 0xEE, 0xDD, 0xBB, 0x77],
    );
    repeat(vram, 0x0840, 32, 0xFF);
}

// A line with these attributes.
fn sprites(out: Stdout, label: &[u8], attributes: &[u8], r: [u8; 8], number: u32) {
    on_fresh(out, |out, vram| {
        patterns(vram);
        put(vram, 0x0300, attributes);
        show(out, label, r, 0, vram, number);
    });
}

// A sprite from line 50 on, at column 100. Its name is 5; a large one has patterns 4 to 7.
fn at_50(out: Stdout, label: &[u8], size: u8, number: u32) {
    sprites(
        out,
        label,
        &[49, 100, 5, 0x09, 0xD0],
        graphics(size),
        number,
    );
}

fn small_sizes(out: Stdout) {
    at_50(out, b"size 8", 0, 49);
    at_50(out, b"size 8", 0, 50);
    at_50(out, b"size 8", 0, 57);
    at_50(out, b"size 8", 0, 58);
    at_50(out, b"size 8 magnified", 1, 50);
    at_50(out, b"size 8 magnified", 1, 51);
    at_50(out, b"size 8 magnified", 1, 65);
    at_50(out, b"size 8 magnified", 1, 66);
}

fn large_sizes(out: Stdout) {
    at_50(out, b"size 16", 2, 50);
    at_50(out, b"size 16", 2, 58);
    at_50(out, b"size 16", 2, 65);
    at_50(out, b"size 16", 2, 66);
    at_50(out, b"size 16 magnified", 3, 50);
    at_50(out, b"size 16 magnified", 3, 52);
    at_50(out, b"size 16 magnified", 3, 81);
    at_50(out, b"size 16 magnified", 3, 82);
}

// A sprite of all ones on line 50, over the right edge, and with early clock over the left one.
fn at_x(out: Stdout, label: &[u8], size: u8, x: u8, colour: u8) {
    sprites(out, label, &[49, x, 8, colour, 0xD0], graphics(size), 50);
}

fn sides(out: Stdout) {
    at_x(out, b"X 250, width 32", 3, 250, 0x09);
    at_x(out, b"X 0, width 32", 3, 0, 0x09);
    at_x(out, b"early clock, X 0, width 32", 3, 0, 0x89);
    at_x(out, b"early clock, X 1, width 32", 3, 1, 0x89);
    at_x(out, b"early clock, X 25, width 8", 0, 25, 0x89);
    at_x(out, b"early clock, X 255, width 16", 2, 255, 0xF9);
}

// Entry over the top edge.
fn at_y(out: Stdout, label: &[u8], size: u8, y: u8, number: u32) {
    sprites(out, label, &[y, 100, 4, 0x09, 0xD0], graphics(size), number);
}

fn top(out: Stdout) {
    at_y(out, b"Y 224, height 32", 3, 224, 0);
    at_y(out, b"Y 223, height 32", 3, 223, 0);
    at_y(out, b"Y 248, height 8", 0, 248, 0);
    at_y(out, b"Y 247, height 8", 0, 247, 0);
    at_y(out, b"Y 255, height 8", 0, 255, 0);
    at_y(out, b"Y 255, height 8", 0, 255, 7);
    at_y(out, b"Y 0, height 8", 0, 0, 0);
    at_y(out, b"Y 190, height 8", 0, 190, 191);
}

// Two sprites of all ones on line 50.
fn two(out: Stdout, label: &[u8], x: u8, colour: u8, other_x: u8, other_colour: u8) {
    sprites(
        out,
        label,
        &[49, x, 8, colour, 49, other_x, 8, other_colour, 0xD0],
        graphics(0),
        50,
    );
}

// The lower number lies in front; colour 0 lets through what is behind it.
fn order(out: Stdout) {
    two(out, b"sprite 0 over sprite 1", 100, 0x03, 104, 0x05);
    two(out, b"colour 0 over sprite 1", 100, 0x00, 104, 0x05);
    two(out, b"two of colour 0", 100, 0x00, 104, 0x00);
    two(out, b"side by side", 100, 0x03, 108, 0x05);
    two(out, b"early clock, side by side", 100, 0x83, 92, 0x85);
}

// Two sprites with pattern 4 over the right edge, of which line 57 has the last bit alone.
fn two_at_right(out: Stdout, label: &[u8], x: u8, other_x: u8) {
    sprites(
        out,
        label,
        &[49, x, 4, 0x03, 49, other_x, 4, 0x05, 0xD0],
        graphics(0),
        57,
    );
}

// Bits that meet beside the screen coincide too.
fn beside(out: Stdout) {
    two(out, b"over each other left of the screen", 0, 0x83, 2, 0x85);
    two(out, b"side by side left of the screen", 0, 0x83, 8, 0x85);
    two_at_right(out, b"over each other right of the screen", 249, 249);
    two_at_right(out, b"side by side right of the screen", 249, 250);
    two_at_right(out, b"over each other at column 255", 248, 248);
}

// The terminator ends the scan, and its own entry is not drawn.
fn terminator(out: Stdout) {
    sprites(
        out,
        b"terminator as sprite 1",
        &[49, 100, 8, 0x03, 0xD0, 104, 8, 0x05, 49, 104, 8, 0x05, 0xD0],
        graphics(0),
        50,
    );
}

// Sprites 0, 3, 5, 9 and 12 cover line 50; the terminator is sprite 13.
fn first_four(vram: &mut [u8], fourth_x: u8) {
    repeat(vram, 0x0300, 52, 150);
    put(vram, 0x0300, &[49, 10, 8, 0x02]);
    put(vram, 0x030C, &[48, 40, 8, 0x03]);
    put(vram, 0x0314, &[47, 70, 8, 0x00]);
    put(vram, 0x0324, &[46, fourth_x, 8, 0x05]);
}

fn five(out: Stdout, label: &[u8], fourth_x: u8, fifth_x: u8, status: u8, number: u32) {
    on_fresh(out, |out, vram| {
        patterns(vram);
        first_four(vram, fourth_x);
        put(vram, 0x0330, &[45, fifth_x, 8, 0x06, 0xD0]);
        show(out, label, graphics(0), status, vram, number);
    });
}

fn fifth(out: Stdout) {
    five(out, b"five sprites", 100, 130, 0x00, 50);
    five(out, b"five sprites, F set", 100, 130, 0x80, 50);
    five(out, b"five sprites, 5S set", 100, 130, 0x45, 50);
    five(out, b"five sprites, C and a number set", 100, 130, 0x3F, 50);
    five(out, b"four sprites", 100, 130, 0x00, 54);
    five(out, b"the fifth over the fourth", 100, 102, 0x00, 50);
    five(out, b"the fourth over the second, F set", 42, 130, 0x80, 50);
}

// No terminator: all 32 are seen, and sprite 31 is drawn.
fn all_32(out: Stdout, vram: &mut [u8]) {
    patterns(vram);
    repeat(vram, 0x0300, 128, 150);
    put(vram, 0x037C, &[49, 100, 5, 0x0E]);
    show(out, b"sprite 31 alone", graphics(0), 0, vram, 50);
    show(out, b"thirty-one sprites", graphics(0), 0, vram, 151);
}

pub fn show_all(out: Stdout) {
    small_sizes(out);
    large_sizes(out);
    sides(out);
    top(out);
    order(out);
    beside(out);
    terminator(out);
    fifth(out);
    on_fresh(out, all_32);
}
