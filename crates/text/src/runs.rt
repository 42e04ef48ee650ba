// The longest runs of a line. (A slice and a place: see numbers.rt.)
ghost use Rattle.std.specs.Prelude.{◌≡◌, ◌+◌, ◌≤◌, ◌<◌, eqb, length};
ghost use Rattle.chip.specs.Lists.{put_at};
ghost use Rattle.text.specs.Runs.{runs};
ghost use Rattle.text.specs.Lines.{run_text, runs_text};

use crate::numbers::put_decimal;
use chip::put;

#[tactic(auto, using(crate::proofs::Laws::Numbers::lengths), unfolding(crate::specs::Lines::run_text))]
fn put_run(out: &mut [u8], at: usize, count: usize, colour: u8) -> usize
    requires { (count < 1000) × (at + 8 ≤ length out.old) }
    ensures value { result ≡ at + length (run_text count colour) }
    ensures out_after { out.new ≡ put_at at (run_text count colour) out.old }
{
    let counted = put(out, at, b" ");
    let star = put_decimal(out, counted, count);
    let coloured = put(out, star, b"*");
    put_decimal(out, coloured, colour as usize)
}

// A run goes on while the colour is the same.
pub fn put_runs(out: &mut [u8], at: usize, line: &[u8; 256]) -> usize
    requires { at + 1600 ≤ length out.old }
    ensures value { result ≡ at + length (runs_text (runs eqb line.now)) }
    ensures out_after { out.new ≡ put_at at (runs_text (runs eqb line.now)) out.old }
{
    let mut end = at;
    for run in line.chunk_by(|a, b| a == b) {
        end = put_run(out, end, run.len(), run[0]);
    }
    end
}
