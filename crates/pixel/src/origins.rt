// Where a colour comes from. Each function puts its text into a slice from a place on, and answers the place behind it.
// A `Cursor` over the slice would need no heap either, but each promise would then speak of its position as well: no plainer.
// Each asks for the room that its longest text takes.
#![tactic(auto, using(crate::proofs::Laws::Origins::texts), unfolding(crate::specs::Origins::sprite_text, crate::specs::Origins::tables_text, crate::specs::Origins::plane_text, crate::specs::Origins::source_text, crate::specs::Origins::origin_text))]

ghost use Rattle.std.specs.Prelude.{◌≡◌, ◌+◌, ◌≤◌, ◌<◌, length};
ghost use Rattle.chip.specs.Lists.{put_at};
ghost use Rattle.pixel.specs.Origins.{labelled, sprite_text, pattern_then_colours, tables_text, plane_text, source_text, origin_text};

use chip::{Mode, Screen, put};
use planes::{CellAddresses, addresses_at};
use sprites::attribute_address;
use text::put_long_decimal;

// Words, and the number behind them.
fn put_labelled(out: &mut [u8], at: usize, words: &[u8], n: usize) -> usize
    requires { (n < 1000000) × (at + length words.now + 6 ≤ length out.old) }
    ensures value { result ≡ at + length (labelled words.now n) }
    ensures out_after { out.new ≡ put_at at (labelled words.now n) out.old }
{
    let number = put(out, at, words);
    put_long_decimal(out, number, n)
}

fn put_sprite(out: &mut [u8], at: usize, screen: Screen, n: usize) -> usize
    requires { (n < 32) × (at + 40 ≤ length out.old) }
    ensures value { result ≡ at + length (sprite_text screen.entry.registers n) }
    ensures out_after { out.new ≡ put_at at (sprite_text screen.entry.registers n) out.old }
{
    let address = attribute_address(screen.registers, n, 0);
    let behind = put_labelled(out, at, b"sprite ", n);
    put_labelled(out, behind, b", attributes at ", address)
}

// (Three ghost fields in `CellAddresses` would be no plainer than this clause and the next, and ask them of whoever builds one.)
fn put_pattern_then_colours(out: &mut [u8], at: usize, a: CellAddresses) -> usize
    requires { (a.pattern < 16384) × (a.colours < 16384) × (at + 40 ≤ length out.old) }
    ensures value { result ≡ at + length (pattern_then_colours a) }
    ensures out_after { out.new ≡ put_at at (pattern_then_colours a) out.old }
{
    let behind = put_labelled(out, at, b", pattern at ", a.pattern);
    put_labelled(out, behind, b", colours at ", a.colours)
}

// What a cell has behind its name, by the mode.
fn put_tables(out: &mut [u8], at: usize, mode: Mode, a: CellAddresses) -> usize
    requires { (a.pattern < 16384) × (a.colours < 16384) × (at + 48 ≤ length out.old) }
    ensures value { result ≡ at + length (tables_text mode a) }
    ensures out_after { out.new ≡ put_at at (tables_text mode a) out.old }
{
    match mode {
        Mode::Blank => at,
        Mode::GraphicsI | Mode::GraphicsII => put_pattern_then_colours(out, at, a),
        Mode::Multicolor => put_labelled(out, at, b", colours at ", a.pattern),
        Mode::Text => {
            let end = put_labelled(out, at, b", pattern at ", a.pattern);
            put(out, end, b", colours in register 7")
        }
    }
}

// The cell of line l that holds column x.
fn put_plane(out: &mut [u8], at: usize, screen: Screen, l: usize, x: usize) -> usize
    requires { (l < 192) × (at + 80 ≤ length out.old) }
    ensures value { result ≡ at + length (plane_text screen.entry.registers screen.entry.vram.now l x) }
    ensures out_after { out.new ≡ put_at at (plane_text screen.entry.registers screen.entry.vram.now l x) out.old }
{
    let mode = chip::mode_of(screen.registers);
    let a = addresses_at(mode, screen, l, x);
    let behind = put_labelled(out, at, b"pattern plane, name at ", a.name);
    put_tables(out, behind, mode, a)
}

// The origin comes as its code, since a point answers that (`Point.origin`: `as-drawn` compares it with the byte of the drawn line).
fn put_source(out: &mut [u8], at: usize, screen: Screen, l: usize, x: usize, code: u8) -> usize
    requires { (l < 192) × (at + 80 ≤ length out.old) }
    ensures value { result ≡ at + length (source_text screen.entry.registers screen.entry.vram.now l x code) }
    ensures out_after { out.new ≡ put_at at (source_text screen.entry.registers screen.entry.vram.now l x code) out.old }
{
    match code {
        0..32 => put_sprite(out, at, screen, code as usize),
        32 => put_plane(out, at, screen, l, x),
        33 => put(out, at, b"backdrop, register 7"),
        34 => put(out, at, b"black by default"),
        _ => put(out, at, b"external video"),
    }
}

pub fn put_origin(out: &mut [u8], at: usize, screen: Screen, l: usize, x: usize, code: u8) -> usize
    requires { (l < 192) × (at + 80 ≤ length out.old) }
    ensures value { result ≡ at + length (origin_text screen.entry.registers screen.entry.vram.now l x code) }
    ensures out_after { out.new ≡ put_at at (origin_text screen.entry.registers screen.entry.vram.now l x code) out.old }
{
    let end = put_source(out, at, screen, l, x, code);
    put(out, end, b"\n")
}
