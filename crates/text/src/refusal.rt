// The line of a refusal. (A slice and a place: see numbers.rt.)
ghost use Rattle.std.specs.Prelude.{◌≡◌, ◌≤◌, length};
ghost use Rattle.chip.specs.Lists.{put_at};
ghost use Rattle.chip.specs.Refusals.{refusal_number};
ghost use Rattle.text.specs.Lines.{refused_text};
ghost use Rattle.text.specs.Calls.{refused_written};

use crate::numbers::put_decimal;
use chip::{Refusal, put};

// `refused N`, at the front of a slice.
#[tactic(auto, using(crate::proofs::Laws::Numbers::lengths), unfolding(crate::specs::Lines::refused_text))]
pub fn put_refused(out: &mut [u8], number: u8) -> usize
    requires { 12 ≤ length out.old }
    ensures value { result ≡ length (refused_text number) }
    ensures out_after { out.new ≡ put_at 0 (refused_text number) out.old }
{
    let a = put(out, 0, b"refused ");
    let b = put_decimal(out, a, number as usize);
    put(out, b, b"\n")
}

// The same for a refusal, by its number.
pub fn put_refusal(out: &mut [u8], refusal: Refusal) -> usize
    requires { 12 ≤ length out.old }
    ensures value { result ≡ length (refused_text (refusal_number refusal)) }
    ensures out_after { out.new ≡ put_at 0 (refused_text (refusal_number refusal)) out.old }
{
    put_refused(out, u8::from(refusal))
}

// Where it fits. (It takes a number and no Refusal: its clause speaks of every number, as `refused_written` does.)
#[tactic(auto, unfolding(crate::specs::Calls::refused_written))]
pub fn refusal_line(number: u8, out: &mut [u8]) -> usize
    ensures value { result ≡ length (refused_written number out.old) }
    ensures out_after { out.new ≡ put_at 0 (refused_written number out.old) out.old }
{
    if out.len() < 12 {
        return 0;
    }
    put_refused(out, number)
}
