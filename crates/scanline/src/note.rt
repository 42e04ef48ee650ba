// A line's note, and status after it. A note is a byte, 32 for no fifth sprite and 64 more for coincidence: so it stands in the slice of
// notes that a caller lends.
ghost use Rattle.std.specs.Prelude.{◌≡◌, ◌≤◌};
ghost use Rattle.sprites.specs.Scan.{fifth_of};
ghost use Rattle.scanline.specs.Notes.{note_by, latched, with_fifth, with_coincidence, status_after};

use chip::{bit, set_bit};
use sprites::Ended;

// The fifth sprite's number, or 32.
fn fifth_of(ended: Ended) -> u8
    ensures { result ≡ fifth_of ended }
{
    match ended {
        Ended::Fifth(n) => n,
        Ended::Terminator | Ended::All => 32,
    }
}

pub fn note_of(ended: Ended, met: bool) -> u8
    requires { fifth_of ended ≤ 32 }
    ensures { result ≡ note_by (fifth_of ended) met }
{
    let fifth = fifth_of(ended);
    if met { fifth + 64 } else { fifth }
}

fn latch(s: u8, n: u8) -> u8
    requires { n ≤ 31 }
    ensures { result ≡ latched s n }
{
    if !bit(s, 6) & !bit(s, 7) {
        set_bit(s / 32 * 32 + n, 6)
    } else {
        s
    }
}

fn with_fifth(s: u8, note: u8) -> u8
    ensures { result ≡ with_fifth s note }
{
    let n = note % 64;
    if n < 32 { latch(s, n) } else { s }
}

fn with_coincidence(s: u8, note: u8) -> u8
    ensures { result ≡ with_coincidence s note }
{
    if bit(note, 6) { set_bit(s, 5) } else { s }
}

// Status after a line with this note.
#[tactic(auto, unfolding(crate::specs::Notes::status_after))]
pub fn status_after(s: u8, note: u8) -> u8
    ensures { result ≡ status_after s note }
{
    with_coincidence(with_fifth(s, note), note)
}
