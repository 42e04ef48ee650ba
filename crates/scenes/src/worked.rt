// The manual's (M) and the guide's (G) worked set-ups.
use crate::fresh::on_fresh;
use crate::print::show;
use crate::put::{count_up, put, repeat};
use std::io::Stdout;

type Registers = [u8; 8];

// G 6-1 Graphics I, G 6-2 Graphics II, G 6-3 Multicolor, G 6-4 Text, M 3.3, G appendix E, G 8-2.
fn g_6_1() -> Registers {
    [0x00, 0xC0, 0x05, 0x80, 0x01, 0x20, 0x00, 0x01]
}

fn g_6_2() -> Registers {
    [0x02, 0xC2, 0x0E, 0xFF, 0x03, 0x76, 0x03, 0x0F]
}

fn g_6_3() -> Registers {
    [0x00, 0xCB, 0x05, 0x00, 0x01, 0x20, 0x00, 0x04]
}

fn g_6_4() -> Registers {
    [0x00, 0xD0, 0x02, 0x00, 0x00, 0x20, 0x00, 0xF5]
}

fn m_3_3() -> Registers {
    [0x00, 0xC0, 0x01, 0x08, 0x01, 0x02, 0x00, 0x01]
}

fn g_e() -> Registers {
    [0x00, 0xC2, 0x01, 0x80, 0x01, 0x06, 0x00, 0x0F]
}

fn g_8_2() -> Registers {
    [0x02, 0xC2, 0x0E, 0x9F, 0x00, 0x76, 0x03, 0x0F]
}

// Zero VRAM: thirty-two sprites at Y = 0, so line 1 has a fifth.
fn zero_vram(out: Stdout, vram: &[u8]) {
    show(out, b"G 6-1, zero VRAM", g_6_1(), 0, vram, 1);
    show(out, b"G 6-2, zero VRAM", g_6_2(), 0, vram, 1);
    show(out, b"G 6-3, zero VRAM", g_6_3(), 0, vram, 1);
    show(out, b"G 6-4, zero VRAM", g_6_4(), 0, vram, 1);
    show(out, b"M 3.3, zero VRAM", m_3_3(), 0, vram, 1);
    show(out, b"G E, zero VRAM", g_e(), 0, vram, 1);
    show(out, b"G 8-2, zero VRAM", g_8_2(), 0, vram, 1);
    show(out, b"G 6-1, zero VRAM", g_6_1(), 0, vram, 0);
    show(out, b"G 6-2, zero VRAM", g_6_2(), 0, vram, 191);
}

// The terminator at the attribute base.
fn no_sprites(out: Stdout, vram: &mut [u8]) {
    put(vram, 0x1000, &[0xD0]);
    show(out, b"G 6-1, no sprites", g_6_1(), 0, vram, 1);
    show(out, b"G 6-3, no sprites", g_6_3(), 0, vram, 1);
}

// Names, patterns, colour bytes and one sprite, each from its table's base on.
fn put_plane(vram: &mut [u8], names: u16, colours: u16, patterns: u16) {
    put(vram, names, &[0, 1, 8]);
    put(vram, patterns, &[0x00, 0x00, 0, 0, 0, 0, 0, 0, 0xA5]);
    put(vram, colours, &[0x62, 0x73, 0, 0, 0, 0, 0, 0, 0x49]);
}

fn put_sprite(vram: &mut [u8], attributes: u16, sprites: u16) {
    put(vram, sprites, &[0xC3]);
    put(vram, attributes, &[0xFF, 0x64, 0x00, 0x08, 0xD0]);
}

fn put_all(
    vram: &mut [u8],
    names: u16,
    colours: u16,
    patterns: u16,
    attributes: u16,
    sprites: u16,
) {
    put_plane(vram, names, colours, patterns);
    put_sprite(vram, attributes, sprites);
}

// Names, colours, patterns, attributes, sprite patterns.
fn bases(out: Stdout, label: &[u8], r: [u8; 8], bases: [u16; 5]) {
    on_fresh(out, |out, vram| {
        put_all(vram, bases[0], bases[1], bases[2], bases[3], bases[4]);
        show(out, label, r, 0, vram, 0);
    });
}

fn show_bases(out: Stdout) {
    bases(
        out,
        b"G 6-1, bytes at the bases",
        g_6_1(),
        [0x1400, 0x2000, 0x0800, 0x1000, 0x0000],
    );
    bases(
        out,
        b"G 6-2, bytes at the bases",
        g_6_2(),
        [0x3800, 0x2000, 0x0000, 0x3B00, 0x1800],
    );
    bases(
        out,
        b"G 8-2, bytes at the bases",
        g_8_2(),
        [0x3800, 0x2000, 0x0000, 0x3B00, 0x1800],
    );
    bases(
        out,
        b"G 6-3, bytes at the bases",
        g_6_3(),
        [0x1400, 0x3000, 0x0800, 0x1000, 0x0000],
    );
    bases(
        out,
        b"G 6-4, bytes at the bases",
        g_6_4(),
        [0x0800, 0x3000, 0x0000, 0x1000, 0x3800],
    );
    bases(
        out,
        b"M 3.3, bytes at the bases",
        m_3_3(),
        [0x0400, 0x0200, 0x0800, 0x0100, 0x0000],
    );
    bases(
        out,
        b"G E, bytes at the bases",
        g_e(),
        [0x0400, 0x2000, 0x0800, 0x0300, 0x0000],
    );
}

// Lines 0 to 7.
fn show_eight(out: Stdout, label: &[u8], r: [u8; 8], vram: &[u8]) {
    for number in 0..8 {
        show(out, label, r, 0, vram, number);
    }
}

// M Fig. 2-13 in cell 0 of G 6-2; the other cells are blank.
fn figure_2_13(out: Stdout, vram: &mut [u8]) {
    repeat(vram, 0x3801, 767, 1);
    put(vram, 0x3B00, &[0xD0]);
    put(
        vram,
        0x0000,
        &[0x41, 0x22, 0x14, 0x08, 0x08, 0x08, 0x08, 0x08],
    );
    put(
        vram,
        0x2000,
        &[0x1B, 0x7B, 0xCB, 0xEB, 0x8B, 0x5B, 0x6B, 0xDB],
    );
    show_eight(out, b"M Fig. 2-13", g_6_2(), vram);
}

// M Fig. 2-11 in cell 0 of Text, in colours 7 and 1.
fn text_7_on_1() -> Registers {
    [0x00, 0xD0, 0x02, 0x00, 0x00, 0x20, 0x00, 0x71]
}

fn figure_2_11(out: Stdout, vram: &mut [u8]) {
    put(vram, 0x0800, &[1]);
    put(
        vram,
        0x0008,
        &[0x7C, 0x04, 0x04, 0x3C, 0x04, 0x04, 0x7C, 0x00],
    );
    show_eight(out, b"M Fig. 2-11", text_7_on_1(), vram);
}

// G's bitmap: names that count up, and one pixel of colour 4 on 15.
fn bitmap(out: Stdout, label: &[u8], at: u16, byte: u8, number: u32) {
    on_fresh(out, |out, vram| {
        count_up(vram, 0x3800, 768);
        repeat(vram, 0x2000, 0x1800, 0x4F);
        put(vram, 0x3B00, &[0xD0]);
        put(vram, at, &[byte]);
        show(out, label, g_6_2(), 0, vram, number);
    });
}

fn show_bitmaps(out: Stdout) {
    bitmap(out, b"bitmap, pixel (0,0)", 0x0000, 0x80, 0);
    bitmap(out, b"bitmap, pixel (255,0)", 0x00F8, 0x01, 0);
    bitmap(out, b"bitmap, pixel (0,64)", 0x0800, 0x80, 64);
    bitmap(out, b"bitmap, pixel (0,64)", 0x0800, 0x80, 0);
    bitmap(out, b"bitmap, pixel (100,100)", 0x0C64, 0x08, 100);
    bitmap(out, b"bitmap, pixel (0,191)", 0x1707, 0x80, 191);
    bitmap(out, b"bitmap, pixel (255,191)", 0x17FF, 0x01, 191);
}

// G's Multicolor names, and the bytes that they lead to.
fn multicolor_names(vram: &mut [u8]) {
    repeat(vram, 0x1400, 768, 0x40);
    put(vram, 0x1400, &[0x02, 0x00]);
    put(vram, 0x141F, &[0x01, 0x02]);
    put(vram, 0x16FF, &[0xFF]);
}

fn multicolor_bytes(vram: &mut [u8]) {
    put(vram, 0x1000, &[0xD0]);
    put(vram, 0x0800, &[0x12, 0x23]);
    put(vram, 0x0808, &[0x34, 0x45]);
    put(vram, 0x0810, &[0x64, 0x46, 0x56, 0x78]);
    put(vram, 0x0FFE, &[0x9A, 0xBC]);
}

fn multicolor_lines(out: Stdout, vram: &[u8]) {
    show_eight(out, b"Multicolor", g_6_3(), vram);
    show(out, b"Multicolor", g_6_3(), 0, vram, 8);
    show(out, b"Multicolor", g_6_3(), 0, vram, 12);
    show(out, b"Multicolor", g_6_3(), 0, vram, 187);
    show(out, b"Multicolor", g_6_3(), 0, vram, 188);
}

fn multicolor(out: Stdout, vram: &mut [u8]) {
    multicolor_names(vram);
    multicolor_bytes(vram);
    multicolor_lines(out, vram);
}

// G Table 10-1: the spaceman, of two sprites over each other.
fn table_10_1() -> Registers {
    [0x00, 0xC2, 0x05, 0x80, 0x01, 0x20, 0x00, 0x05]
}

fn man(vram: &mut [u8]) {
    put(
        vram,
        0x0000,
        &[0x01, 0x03, 0x03, 0x03, 0x01, 0x03, 0x03, 0x05],
    );
    put(
        vram,
        0x0008,
        &[0x0F, 0x03, 0x03, 0x07, 0x07, 0x0E, 0x0C, 0x06],
    );
    put(
        vram,
        0x0010,
        &[0xC0, 0xA0, 0xE0, 0xC0, 0x80, 0xC0, 0xF0, 0xF8],
    );
    put(
        vram,
        0x0018,
        &[0xC0, 0xC0, 0xF0, 0x70, 0x60, 0x30, 0x00, 0x00],
    );
}

fn overlay(vram: &mut [u8]) {
    put(
        vram,
        0x0160,
        &[0x07, 0x1F, 0x3F, 0x7F, 0x7F, 0xFF, 0xFF, 0xFF],
    );
    put(
        vram,
        0x0168,
        &[0xFF, 0xFF, 0xFF, 0x7F, 0x7F, 0x3F, 0x1F, 0x07],
    );
    put(
        vram,
        0x0170,
        &[0xE0, 0xF8, 0xFC, 0xFE, 0xFE, 0xFF, 0xFF, 0xFF],
    );
    put(
        vram,
        0x0178,
        &[0xFF, 0xFF, 0xFF, 0xFE, 0xFE, 0xFC, 0xF8, 0xE0],
    );
}

fn spaceman_lines(out: Stdout, vram: &[u8]) {
    show(out, b"G Table 10-1", table_10_1(), 0, vram, 0);
    show(out, b"G Table 10-1", table_10_1(), 0, vram, 1);
    show(out, b"G Table 10-1", table_10_1(), 0, vram, 9);
    show(out, b"G Table 10-1", table_10_1(), 0, vram, 16);
    show(out, b"G Table 10-1", table_10_1(), 0, vram, 17);
    show(out, b"G Table 10-1", table_10_1(), 0, vram, 191);
}

fn spaceman(out: Stdout, vram: &mut [u8]) {
    man(vram);
    overlay(vram);
    put(
        vram,
        0x1000,
        &[0, 0, 0x00, 0x0F, 0, 0, 0x2C, 0x01, 0, 0, 0x0C, 0x04, 0xD0],
    );
    spaceman_lines(out, vram);
}

pub fn show_all(out: Stdout) {
    on_fresh(out, |out, vram| zero_vram(out, vram));
    on_fresh(out, no_sprites);
    show_bases(out);
    on_fresh(out, figure_2_13);
    on_fresh(out, figure_2_11);
    show_bitmaps(out);
    on_fresh(out, multicolor);
    on_fresh(out, spaceman);
}
