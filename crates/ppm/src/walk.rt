// The walk over the output, a piece at a time.
ghost use Rattle.std.specs.Prelude.{◌≤◌, ◌≡◌, length};
ghost use Rattle.chip.specs.Lists.{put_at};
ghost use Rattle.snapshot.specs.Calls.{read_vram};
ghost use Rattle.text.specs.Pieces.{piece_of};
ghost use Rattle.ppm.specs.Walk as walks;

use crate::paint::paint;
use chip::{Chip, Refusal};
use text::Piece;

// What is written next: the line of a refusal, the header, or a line of the picture.
#[derive(Clone, Copy)]
enum Next {
    Refused(Refusal),
    Header,
    Line(u8),
}

#[derive(Clone, Copy)]
pub struct Walk {
    next: Next,
    chip: Chip,
}

// What is written first, by how reading the file was answered. (`text` has the same over its own steps: no trait for two lines.)
fn first_next(read: Result<u8, Refusal>) -> Next
    ensures { result ≡ walks.first_next read }
{
    match read {
        Ok(_) => Next::Header,
        Err(refusal) => Next::Refused(refusal),
    }
}

// Reads the file as a snapshot into VRAM, which has its length by type: no program can lend another. (`text` has its
// own: each makes its own walk, whose fields are private to it.)
#[tactic(auto, using(crate::proofs::Laws::Start::started))]
pub fn start(file: &[u8], vram: &mut [u8; 16384]) -> Walk
    ensures value { result ≡ walks.start_walk vram.old file.now }
    ensures vram_after { vram.new ≡ read_vram vram.old file.now }
{
    let answer = snapshot::read(Chip::power_up_state(), vram, file);
    Walk {
        next: first_next(answer.result),
        chip: answer.chip,
    }
}

// Line l, if it can be drawn.
#[tactic(auto, using(crate::proofs::Laws::Steps::lines))]
fn put_line(walk: Walk, l: u8, vram: &[u8; 16384], out: &mut [u8]) -> Piece<Walk>
    requires { 768 ≤ length out.old }
    ensures value { result ≡ piece_of (walks.line_step vram.now walk l) }
    ensures out_after { out.new ≡ put_at 0 (walks.line_step vram.now walk l).bytes out.old }
{
    let chip = walk.chip;
    let mut line = [0u8; 256];
    let answer = scanline::draw_colours(chip, vram, &mut line, l as u32);
    if answer.result.is_err() {
        return Piece::nothing(walk);
    }
    paint(&line, out);
    Piece {
        walk: Walk {
            next: Next::Line(l + 1),
            chip,
        },
        written: 768,
        last: l == 191,
    }
}

// Writes the next piece at the front of the output, whose length by type any piece has room in: no program can lend a shorter one.
#[tactic(auto, unfolding(crate::specs::Walk::step_of))]
pub fn step(walk: Walk, vram: &[u8; 16384], out: &mut [u8; 768]) -> Piece<Walk>
    ensures value { result ≡ piece_of (walks.step_of vram.now walk) }
    ensures out_after { out.new ≡ put_at 0 (walks.step_of vram.now walk).bytes out.old }
{
    let chip = walk.chip;
    let next = walk.next;
    match next {
        Next::Refused(refusal) => Piece {
            walk,
            written: text::put_refusal(out, refusal),
            last: true,
        },
        Next::Header => Piece {
            walk: Walk {
                next: Next::Line(0),
                chip,
            },
            written: chip::put(out, 0, b"P6\n256 192\n255\n"),
            last: false,
        },
        Next::Line(l) => put_line(walk, l, vram, out),
    }
}
