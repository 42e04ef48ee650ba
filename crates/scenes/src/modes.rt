// The four modes over VRAM that differs from place to place, blank lines, and external video.
use crate::fresh::on_fresh;
use crate::print::show;
use crate::put::{mix, put};
use std::io::Stdout;

type Registers = [u8; 8];

// Names at hex 0400, attributes at 3000, sprite patterns at 3800.
fn mode(r0: u8, r1: u8, r3: u8, r4: u8, r7: u8) -> Registers {
    [r0, r1, 0x01, r3, r4, 0x60, 0x07, r7]
}

fn graphics_i() -> Registers {
    mode(0x00, 0x40, 0xA0, 0x02, 0xF7)
}

fn graphics_ii() -> Registers {
    mode(0x02, 0x40, 0x80, 0x00, 0xF7)
}

fn multicolor() -> Registers {
    mode(0x00, 0x48, 0xA0, 0x02, 0xF7)
}

fn text() -> Registers {
    mode(0x00, 0x50, 0xA0, 0x02, 0xF7)
}

fn graphics(out: Stdout, vram: &[u8]) {
    show(out, b"Graphics I", graphics_i(), 0, vram, 0);
    show(out, b"Graphics I", graphics_i(), 0, vram, 100);
    show(out, b"Graphics II", graphics_ii(), 0, vram, 63);
    show(out, b"Graphics II", graphics_ii(), 0, vram, 64);
    show(out, b"Graphics II", graphics_ii(), 0, vram, 191);
}

fn others(out: Stdout, vram: &[u8]) {
    show(out, b"Multicolor", multicolor(), 0, vram, 3);
    show(out, b"Multicolor", multicolor(), 0, vram, 4);
    show(out, b"Multicolor", multicolor(), 0, vram, 191);
    show(out, b"Text", text(), 0, vram, 0);
    show(out, b"Text", text(), 0, vram, 191);
}

fn without_sprites(out: Stdout, vram: &mut [u8]) {
    mix(vram);
    put(vram, 0x3000, &[0xD0]);
    graphics(out, vram);
    others(out, vram);
}

fn each_mode(out: Stdout, vram: &[u8]) {
    show(out, b"Graphics I, five sprites", graphics_i(), 0, vram, 100);
    show(
        out,
        b"Graphics II, five sprites",
        graphics_ii(),
        0,
        vram,
        100,
    );
    show(out, b"Multicolor, five sprites", multicolor(), 0, vram, 100);
    show(out, b"Text, five sprites in VRAM", text(), 0, vram, 100);
}

// Display off, and each set of two or three mode bits.
fn blank(out: Stdout, vram: &[u8]) {
    show(
        out,
        b"display off",
        mode(0x00, 0x80, 0xA0, 0x02, 0xF7),
        0,
        vram,
        100,
    );
    show(
        out,
        b"display off in Text",
        mode(0x00, 0x10, 0xA0, 0x02, 0xF7),
        0x45,
        vram,
        100,
    );
    show(
        out,
        b"M1 and M2",
        mode(0x00, 0x58, 0xA0, 0x02, 0xF7),
        0,
        vram,
        100,
    );
    show(
        out,
        b"M1 and M3",
        mode(0x02, 0x50, 0xA0, 0x02, 0xF7),
        0,
        vram,
        100,
    );
    show(
        out,
        b"M2 and M3",
        mode(0x02, 0x48, 0xA0, 0x02, 0xF7),
        0,
        vram,
        100,
    );
    show(
        out,
        b"M1, M2 and M3",
        mode(0x02, 0x58, 0xA0, 0x02, 0xF0),
        0,
        vram,
        100,
    );
}

// Five sprites on line 100, of which two meet.
fn with_sprites(out: Stdout, vram: &mut [u8]) {
    mix(vram);
    put(
        vram,
        0x3000,
        &[99, 20, 0, 0x0A, 95, 60, 1, 0x03, 98, 62, 2, 0x0C],
    );
    put(vram, 0x300C, &[94, 200, 3, 0x06, 97, 120, 4, 0x09, 0xD0]);
    each_mode(out, vram);
    blank(out, vram);
}

// All planes 0.
fn external_video(out: Stdout, vram: &[u8]) {
    show(
        out,
        b"all planes 0",
        mode(0x00, 0x40, 0xA0, 0x02, 0x00),
        0,
        vram,
        100,
    );
    show(
        out,
        b"all planes 0, external video",
        mode(0x01, 0x40, 0xA0, 0x02, 0x00),
        0,
        vram,
        100,
    );
    show(
        out,
        b"display off, external video",
        mode(0x01, 0x00, 0xA0, 0x02, 0xF0),
        0,
        vram,
        100,
    );
    show(
        out,
        b"backdrop 9, external video",
        mode(0x01, 0x40, 0xA0, 0x02, 0x09),
        0,
        vram,
        100,
    );
}

// A pattern with a colour 0.
fn colour_0(out: Stdout, vram: &[u8]) {
    show(
        out,
        b"colour 0 of a pattern",
        mode(0x00, 0x40, 0xA0, 0x02, 0x00),
        0,
        vram,
        0,
    );
    show(
        out,
        b"colour 0 of a pattern, external video",
        mode(0x01, 0x40, 0xA0, 0x02, 0x00),
        0,
        vram,
        0,
    );
    show(
        out,
        b"colour 0 of a pattern, backdrop 3",
        mode(0x01, 0x40, 0xA0, 0x02, 0x53),
        0,
        vram,
        0,
    );
    show(
        out,
        b"Text of colours 4 and 0",
        mode(0x01, 0x50, 0xA0, 0x02, 0x40),
        0,
        vram,
        0,
    );
}

fn no_colour(out: Stdout, vram: &mut [u8]) {
    put(vram, 0x3000, &[0xD0]);
    put(vram, 0x0405, &[1]);
    put(vram, 0x1008, &[0xF0]);
    put(vram, 0x2800, &[0x60]);
    external_video(out, vram);
    colour_0(out, vram);
}

pub fn show_all(out: Stdout) {
    on_fresh(out, without_sprites);
    on_fresh(out, with_sprites);
    on_fresh(out, no_colour);
}
