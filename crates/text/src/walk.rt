// The output for a file, piece by piece: `start` reads the file, and each `step` writes a piece.
ghost use Rattle.std.specs.Prelude.{◌≡◌, true, ◌<◌};
ghost use Rattle.chip.specs.Lists.{put_at};
ghost use Rattle.chip.specs.State.{masked};
ghost use Rattle.snapshot.specs.Calls.{read_vram};
ghost use Rattle.text.specs.Pieces.{piece_of};
ghost use Rattle.text.specs.Walk as walks;

use crate::pieces::Piece;
use crate::range::{put_range, same};
use crate::refusal::put_refusal;
use crate::status::{put_status, status_drawn};
use chip::{Chip, Refusal, Screen};
use scanline::draw_row;

// What is next: the line of a refusal, the status line, a line of the picture, or the last range.
#[derive(Clone, Copy)]
enum Next {
    Refused(Refusal),
    Status,
    Line(u8),
    End,
}

// What is next, the state that the file holds, and the range so far: lines `from` to `to`, each with these colours.
#[derive(Clone, Copy)]
pub struct Walk {
    next: Next,
    chip: Chip,
    from: u8,
    to: u8,
    colours: [u8; 256],
}

// What is first, by how reading the file was answered. (`ppm` has the same over what it writes next: no trait for two lines.)
fn first_next(read: Result<u8, Refusal>) -> Next
    ensures { result ≡ walks.first_next read }
{
    match read {
        Ok(_) => Next::Status,
        Err(refusal) => Next::Refused(refusal),
    }
}

// Reads the file as a snapshot into VRAM, which has its length by type: no program can lend another. (`ppm` has its own: each makes its
// own walk, whose fields are private to it.)
pub fn start(file: &[u8], vram: &mut [u8; 16384]) -> Walk
    ensures value { result ≡ walks.start_walk vram.old file.now }
    ensures vram_after { vram.new ≡ read_vram vram.old file.now }
{
    let answer = snapshot::read(Chip::power_up_state(), vram, file);
    Walk {
        next: first_next(answer.result),
        chip: answer.chip,
        from: 0,
        to: 0,
        colours: [0; 256],
    }
}

// Whether lines can be drawn.
fn drawable(chip: Chip, vram: &[u8]) -> bool
    ensures { result ≡ walks.drawable chip vram.now }
{
    (vram.len() == 16384) & chip.is_well_formed()
}

// Line l, or the end where there is no such line.
fn next_at(l: u8) -> Next
    ensures { result ≡ walks.next_at l }
{
    if l < 192 { Next::Line(l) } else { Next::End }
}

// The status line. Line 0 is then the range so far.
fn status_step(walk: Walk, vram: &[u8; 16384], out: &mut [u8; 2048]) -> Piece<Walk>
    requires { masked walk.chip.registers ≡ true }
    ensures value { result ≡ piece_of (walks.status_step vram.now walk) }
    ensures out_after { out.new ≡ put_at 0 (walks.status_step vram.now walk).bytes out.old }
{
    let chip = walk.chip;
    let screen = Screen::new(chip.registers, vram);
    let status = status_drawn(screen, chip.status);
    let end_of_status = put_status(out, chip.status, status);
    let mut colours = [0u8; 256];
    draw_row(screen, 0, &mut colours);
    let after = Walk {
        next: Next::Line(1),
        chip,
        from: 0,
        to: 0,
        colours,
    };
    Piece {
        walk: after,
        written: end_of_status,
        last: false,
    }
}

// One line more. Where it differs from the range so far, that range has ended: its text is written, and the line starts the next.
#[tactic(auto, unfolding(crate::specs::Walk::line_step))]
fn line_step(walk: Walk, l: u8, vram: &[u8; 16384], out: &mut [u8; 2048]) -> Piece<Walk>
    requires { (masked walk.chip.registers ≡ true) × (l < 192) }
    ensures value { result ≡ piece_of (walks.line_step vram.now walk l) }
    ensures out_after { out.new ≡ put_at 0 (walks.line_step vram.now walk l).bytes out.old }
{
    let chip = walk.chip;
    let screen = Screen::new(chip.registers, vram);
    let colours = walk.colours;
    let mut line = [0u8; 256];
    draw_row(screen, l, &mut line);
    let next = next_at(l + 1);
    if same(&colours, &line) {
        let after = Walk {
            next,
            chip,
            from: walk.from,
            to: l,
            colours,
        };
        return Piece {
            walk: after,
            written: 0,
            last: false,
        };
    }
    let end_of_range = put_range(out, walk.from, walk.to, &colours);
    let after = Walk {
        next,
        chip,
        from: l,
        to: l,
        colours: line,
    };
    Piece {
        walk: after,
        written: end_of_range,
        last: false,
    }
}

// The text of the last range.
fn end_step(walk: Walk, out: &mut [u8; 2048]) -> Piece<Walk>
    ensures value { result ≡ piece_of (walks.end_step walk) }
    ensures out_after { out.new ≡ put_at 0 (walks.end_step walk).bytes out.old }
{
    let colours = walk.colours;
    let end_of_last = put_range(out, walk.from, walk.to, &colours);
    Piece {
        walk,
        written: end_of_last,
        last: true,
    }
}

// The line of a refusal.
fn refused_step(walk: Walk, refusal: Refusal, out: &mut [u8; 2048]) -> Piece<Walk>
    ensures value { result ≡ piece_of (walks.refused_step walk refusal) }
    ensures out_after { out.new ≡ put_at 0 (walks.refused_step walk refusal).bytes out.old }
{
    Piece {
        walk,
        written: put_refusal(out, refusal),
        last: true,
    }
}

// Writes the next piece at the front of the output, whose length by type any piece has room in: no program can lend a shorter one.
#[tactic(auto, using(crate::proofs::Laws::Steps::draws), unfolding(crate::specs::Walk::step_of, crate::specs::Walk::step_at))]
pub fn step(walk: Walk, vram: &[u8; 16384], out: &mut [u8; 2048]) -> Piece<Walk>
    ensures value { result ≡ piece_of (walks.step_of vram.now walk) }
    ensures out_after { out.new ≡ put_at 0 (walks.step_of vram.now walk).bytes out.old }
{
    let chip = walk.chip;
    let next = walk.next;
    match next {
        Next::Refused(refusal) => refused_step(walk, refusal, out),
        Next::Status => {
            if drawable(chip, vram) {
                status_step(walk, vram, out)
            } else {
                Piece::nothing(walk)
            }
        }
        Next::Line(l) => {
            if 191 < l {
                return Piece::nothing(walk);
            }
            if drawable(chip, vram) {
                line_step(walk, l, vram, out)
            } else {
                Piece::nothing(walk)
            }
        }
        Next::End => end_step(walk, out),
    }
}
