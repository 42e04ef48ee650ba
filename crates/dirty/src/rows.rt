// Which lines are dirty, plane and sprites together.
ghost use Rattle.std.specs.Prelude.{◌≡◌};
ghost use Rattle.fetches.specs.Fetch.{fetched, any_dirty};
ghost use Rattle.scanline.specs.Line.{line_of};
ghost use Rattle.dirty.specs.Rows.{RowBits};

use crate::plane::plane_rows_dirty;
use crate::scan::{add_marked, sprites_clear};
use chip::Screen;
use scanline::has_sprites;
use sets::sets_of;

// Where no byte that a scan can read is dirty, no sprite is looked at.
pub fn dirty_rows(screen: Screen, map: &[u8; 2048]) -> [u8; 24]
    ensures { RowBits result (λ l. any_dirty map.now (fetched (line_of screen.entry.registers l) screen.entry.vram.now)) }
{
    let mode = chip::mode_of(screen.registers);
    let mut rows = plane_rows_dirty(mode, screen, map);
    if !has_sprites(mode) {
        return rows;
    }
    if sprites_clear(screen, map) {
        return rows;
    }
    let sets = sets_of(screen);
    add_marked(screen, map, &sets, &mut rows);
    rows
}
