// Status updated by the notes of all lines, in order. Coincidence in any line sets C; of fifth sprites only the first counts.
// So one note stands for all: it has the first fifth sprite, and coincidence where some note has.
ghost use Rattle.std.specs.Prelude.{◌≡◌};
ghost use Rattle.scanline.specs.Notes.{status_through};
ghost use Rattle.frame.specs.Status.{first_fifth, Joined};

use chip::bit;
use scanline::status_after;

// Bits 5 and 6 tell of a fifth sprite and of coincidence in some line: a note's own bit 5 is clear where it has a fifth sprite.
// There is no early exit, so that many notes can be joined at once.
fn joined(notes: &[u8]) -> u8
    ensures { Joined notes.now result }
{
    let mut joined: u8 = 0;
    for note in notes {
        joined |= *note ^ 32;
    }
    joined
}

// The first fifth sprite's number, or 32.
fn first_fifth(notes: &[u8]) -> u8
    ensures { result ≡ first_fifth notes.now }
{
    notes
        .iter()
        .map(|note| *note % 64)
        .find(|n| *n < 32)
        .unwrap_or(32)
}

// Where 5S (hex 40) or F (80) is on, no fifth sprite counts, and none is looked for.
pub fn status_through(status: u8, notes: &[u8]) -> u8
    ensures { result ≡ status_through status notes.now }
{
    let any = joined(notes);
    let fifth = if bit(any, 5) & (status < 64) {
        first_fifth(notes)
    } else {
        32
    };
    status_after(status, fifth + any / 64 % 2 * 64)
}
