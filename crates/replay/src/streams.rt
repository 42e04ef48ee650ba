// Both streams of the program, from its whole input.
ghost use Rattle.std.specs.Prelude.{◌≡◌, ◌≤◌, length};
ghost use Rattle.chip.specs.Lists.{put_at};
ghost use Rattle.chip.specs.Refusals.{refusal_number};
ghost use Rattle.text.specs.Lines.{refused_text};
ghost use Rattle.replay.specs.Streams as streams;

use crate::report::put_report;
use chip::{Chip, Refusal};
use text::put_refusal;

// How many bytes go to standard output, and to standard error.
// (The counts stand beside the two lent buffers for the same reason as a slice's place: see crates/pixel/src/origins.rt.)
#[derive(Clone, Copy)]
pub struct Written {
    pub output: usize,
    pub errors: usize,
}

// The line of a refusal, and nothing on standard output.
fn refuse(refusal: Refusal, errors: &mut [u8]) -> Written
    requires { 64 ≤ length errors.old }
    ensures value { result ≡ record { output = 0; errors = length (refused_text (refusal_number refusal)) } }
    ensures errors_after { errors.new ≡ put_at 0 (refused_text (refusal_number refusal)) errors.old }
{
    Written {
        output: 0,
        errors: put_refusal(errors, refusal),
    }
}

// The lengths of both outputs are given by type: no program can lend one that is too short.
pub fn replay(input: &[u8], output: &mut [u8; 16406], errors: &mut [u8; 64]) -> Written
    ensures value { result ≡ streams.written_of (streams.replayed input.now) }
    ensures output_after { output.new ≡ put_at 0 (streams.replayed input.now).output output.old }
    ensures errors_after { errors.new ≡ put_at 0 (streams.replayed input.now).errors errors.old }
{
    if input.len() < 16406 {
        return refuse(Refusal::SnapshotLength, errors);
    }
    let mut vram = [0u8; 16384];
    let answer = snapshot::read(Chip::power_up_state(), &mut vram, &input[..16406]);
    if let Err(refusal) = answer.result {
        return refuse(refusal, errors);
    }
    let mut map = [0u8; 2048];
    let mut line = [0u8; 256];
    let ran = port_log::run(answer.chip, &mut vram, &mut map, &mut line, &input[16406..]);
    match ran.result {
        Err(refusal) => refuse(refusal, errors),
        Ok(reached) => {
            snapshot::write(ran.chip, &vram, output);
            Written {
                output: 16406,
                errors: put_report(errors, reached.done, reached.place, reached.found),
            }
        }
    }
}
