// The lines whose scan fetches a dirty byte.
ghost use Rattle.std.specs.Prelude.{◌≡◌, true, false, ◌||◌, List, ℕ, ◌+◌, ◌*◌, ◌<◌, get_or};
ghost use Rattle.chip.specs.Bits.{bit};
ghost use Rattle.chip.specs.State.{Bytes};
ghost use Rattle.fetches.specs.Fetch.{fetched, any_dirty};
ghost use Rattle.sprites.specs.Scan.{scan_of};
ghost use Rattle.sets.specs.Sets.{IsSet, Sets};
ghost use Rattle.dirty.specs.Marks.{attributes_at, Quiet, Marks, scan_dirty};

use crate::marks::{attributes_from, marks_of, patterns_clear, ys_clear};
use crate::part::part_dirty;
use chip::{Screen, set_bit};
use sprites::scan_dirty;

// Whether no byte that a scan can read is dirty.
pub fn sprites_clear(screen: Screen, map: &[u8; 2048]) -> bool
    ensures { result ≡ true → (l : ℕ) (vram : List ℕ) → Bytes vram → any_dirty map.now (fetched (scan_of screen.entry.registers l) vram) ≡ false }
{
    !part_dirty(map, attributes_from(screen), 16) && patterns_clear(screen, map)
}

// Whether the scan of line l fetches a dirty byte. Where neither a Y nor a pattern is dirty, it does not if no sprite that covers
// the line is marked.
fn line_marked(screen: Screen, map: &[u8; 2048], l: u8, set: u32, marks: u32, quiet: bool) -> bool
    requires { IsSet screen.registers screen.vram.now l set × Marks map.now (attributes_at screen.registers) marks × (quiet ≡ true → Quiet screen.registers map.now) }
    ensures { result ≡ scan_dirty screen.entry.registers screen.entry.vram.now map.now l }
{
    if quiet && set & marks == 0 {
        return false;
    }
    scan_dirty(screen, map, l)
}

// Adds the answers of a row's eight lines to its byte. Where all of them are dirty already no sprite is looked at.
fn row_marked(
    screen: Screen,
    map: &[u8; 2048],
    sets: &[u32; 192],
    row: usize,
    before: u8,
    marks: u32,
    quiet: bool,
) -> u8
    requires { Sets screen.registers screen.vram.now sets.now × (row < 24) × Marks map.now (attributes_at screen.registers) marks × (quiet ≡ true → Quiet screen.registers map.now) }
    ensures { (k : ℕ) → k < 8 → bit k result ≡ (bit k before || scan_dirty screen.entry.registers screen.entry.vram.now map.now (8 * row + k)) }
{
    if before == 255 {
        return before;
    }
    let mut byte = before;
    for k in 0..8 {
        let l = 8 * row + k;
        if line_marked(screen, map, l as u8, sets[l], marks, quiet) {
            byte = set_bit(byte, k as u8);
        }
    }
    byte
}

// Adds to the rows' bytes the lines whose scan fetches a dirty byte.
pub fn add_marked(screen: Screen, map: &[u8; 2048], sets: &[u32; 192], rows: &mut [u8; 24])
    requires { Sets screen.registers screen.vram.now sets.now }
    ensures by_index { (row k : ℕ) → row < 24 → k < 8 → bit k (get_or rows.new row 0) ≡ (bit k (get_or rows.old row 0) || any_dirty map.now (fetched (scan_of screen.entry.registers (8 * row + k)) screen.entry.vram.now)) }
{
    let from = attributes_from(screen);
    let quiet = ys_clear(map, from) && patterns_clear(screen, map);
    let marks = marks_of(map, from);
    for (row, byte) in rows.iter_mut().enumerate() {
        *byte = row_marked(screen, map, sets, row, *byte, marks, quiet);
    }
}
