// Status after a full draw, and the status line. (A slice and a place: see numbers.rt.)
ghost use Rattle.std.specs.Prelude.{◌≡◌, ◌≤◌, length};
ghost use Rattle.chip.specs.Lists.{put_at};
ghost use Rattle.scanline.specs.Notes.{status_through};
ghost use Rattle.frame.specs.Draw.{notes_of};
ghost use Rattle.text.specs.Lines.{status_text};

use crate::numbers::put_hex;
use chip::{Screen, put};
use scanline::{draw_row, status_after};

// Status after lines 0 to 191 are drawn.
pub fn status_drawn(screen: Screen, status: u8) -> u8
    ensures { result ≡ status_through status (notes_of screen.entry.registers screen.entry.vram.now) }
{
    let mut line = [0u8; 256];
    let mut s = status;
    for l in 0..192 {
        let note = draw_row(screen, l, &mut line);
        s = status_after(s, note);
    }
    s
}

#[tactic(auto, unfolding(crate::specs::Lines::status_text))]
pub fn put_status(out: &mut [u8], before: u8, after: u8) -> usize
    requires { 13 ≤ length out.old }
    ensures value { result ≡ length (status_text before after) }
    ensures out_after { out.new ≡ put_at 0 (status_text before after) out.old }
{
    let a = put(out, 0, b"status ");
    let b = put_hex(out, a, before);
    let c = put(out, b, b" ");
    let d = put_hex(out, c, after);
    put(out, d, b"\n")
}
