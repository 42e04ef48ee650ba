// Drawing a line: the pattern plane, then the sprites over it.
ghost use Rattle.std.specs.Prelude.{◌≡◌, ◌<◌, get_or};
ghost use Rattle.chip.specs.Lists.{tabulate};
ghost use Rattle.fetches.specs.Fetch.{value};
ghost use Rattle.planes.specs.Pixel.{first_non_zero};
ghost use Rattle.sprites.specs.Pixels.{visible, sprite_colours, numbered_colours, coincidence};
ghost use Rattle.sprites.specs.Scan.{scan_of, fifth_of};
ghost use Rattle.sprites.specs.Codes.{first_number};
ghost use Rattle.scanline.specs.Line.{has_sprites};
ghost use Rattle.scanline.specs.Notes.{note_by};
ghost use Rattle.scanline.specs.Calls as calls;

use crate::note::note_of;
use chip::{Mode, Screen};

// Text and blank lines have no sprites.
pub fn has_sprites(mode: Mode) -> bool
    ensures { result ≡ has_sprites mode }
{
    !matches!(mode, Mode::Blank | Mode::Text)
}

// The sprites of a mode that has them, over the line. Answers the note.
fn draw_sprites(screen: Screen, l: u8, line: &mut [u8; 256]) -> u8
    ensures value { let f = value (scan_of screen.entry.registers l) screen.entry.vram.now in result ≡ note_by (fifth_of f.ended) (coincidence screen.entry.registers f.sprites) }
    ensures line_after { let f = value (scan_of screen.entry.registers l) screen.entry.vram.now in line.new ≡ tabulate 256 (λ x. first_non_zero (sprite_colours screen.entry.registers f.sprites (visible x)) (get_or line.old x 0)) }
{
    let scan = sprites::scan_of(screen, l);
    let met = sprites::draw_sprites(line, scan);
    note_of(scan.ended, met)
}

// Draws line l, and answers its note. The draws with origins, below, are functions of their own: with `origins: Option<&mut [u8]>` in
// these, each clause on origins would have two cases, and each body two more matches.
pub fn draw_row(screen: Screen, l: u8, line: &mut [u8; 256]) -> u8
    requires { l < 192 }
    ensures value { result ≡ calls.note_at screen.entry.registers screen.entry.vram.now l }
    ensures line_after { line.new ≡ calls.colours screen.entry.registers screen.entry.vram.now l }
{
    let mode = chip::mode_of(screen.registers);
    planes::draw_plane(mode, screen, l as usize, line);
    if has_sprites(mode) {
        return draw_sprites(screen, l, line);
    }
    32
}

// The sprites over the line, and their numbers over its origins. One scan is for both.
fn draw_sprites_with_origins(
    screen: Screen,
    l: u8,
    line: &mut [u8; 256],
    origins: &mut [u8; 256],
) -> u8
    ensures value { let f = value (scan_of screen.entry.registers l) screen.entry.vram.now in result ≡ note_by (fifth_of f.ended) (coincidence screen.entry.registers f.sprites) }
    ensures line_after { let f = value (scan_of screen.entry.registers l) screen.entry.vram.now in line.new ≡ tabulate 256 (λ x. first_non_zero (sprite_colours screen.entry.registers f.sprites (visible x)) (get_or line.old x 0)) }
    ensures origins_after { let f = value (scan_of screen.entry.registers l) screen.entry.vram.now in origins.new ≡ tabulate 256 (λ x. first_number (numbered_colours screen.entry.registers f.sprites (visible x)) (get_or origins.old x 0)) }
{
    let scan = sprites::scan_of(screen, l);
    sprites::draw_numbers(origins, scan);
    let met = sprites::draw_sprites(line, scan);
    note_of(scan.ended, met)
}

// Draws line l with its origins, and answers its note.
pub fn draw_row_with_origins(
    screen: Screen,
    l: u8,
    line: &mut [u8; 256],
    origins: &mut [u8; 256],
) -> u8
    requires { l < 192 }
    ensures value { result ≡ calls.note_at screen.entry.registers screen.entry.vram.now l }
    ensures line_after { line.new ≡ calls.colours screen.entry.registers screen.entry.vram.now l }
    ensures origins_after { origins.new ≡ calls.origins screen.entry.registers screen.entry.vram.now l }
{
    let mode = chip::mode_of(screen.registers);
    planes::draw_plane_with_origins(mode, screen, l as usize, line, origins);
    if has_sprites(mode) {
        return draw_sprites_with_origins(screen, l, line, origins);
    }
    32
}
