// A range of equal neighbouring lines. (A slice and a place: see numbers.rt.)
ghost use Rattle.std.specs.Prelude.{◌≡◌, ◌≤◌, length};
ghost use Rattle.chip.specs.Lists.{put_at};
ghost use Rattle.text.specs.Runs as join;
ghost use Rattle.text.specs.Lines.{bounds_text, range_text};

use crate::numbers::put_decimal;
use crate::runs::put_runs;
use chip::put;

// Whether two lines have the same colours.
pub fn same(a: &[u8], b: &[u8]) -> bool
    requires { length a.now ≡ length b.now }
    ensures { result ≡ join.same a.now b.now }
{
    a == b
}

// `lines A-B`
#[tactic(auto, using(crate::proofs::Laws::Numbers::lengths), unfolding(crate::specs::Lines::bounds_text))]
fn put_bounds(out: &mut [u8], first: u8, last: u8) -> usize
    requires { 13 ≤ length out.old }
    ensures value { result ≡ length (bounds_text first last) }
    ensures out_after { out.new ≡ put_at 0 (bounds_text first last) out.old }
{
    let a = put(out, 0, b"lines ");
    let dash = put_decimal(out, a, first as usize);
    let b = put(out, dash, b"-");
    put_decimal(out, b, last as usize)
}

// The text of lines first to last, each with these colours.
#[tactic(auto, using(crate::proofs::Laws::Numbers::lengths, crate::proofs::Laws::Runs::length_runs), unfolding(crate::specs::Lines::range_text))]
pub fn put_range(out: &mut [u8; 2048], first: u8, last: u8, range: &[u8; 256]) -> usize
    ensures value { result ≡ length (range_text first last range.now) }
    ensures out_after { out.new ≡ put_at 0 (range_text first last range.now) out.old }
{
    let bounds = put_bounds(out, first, last);
    let runs = put_runs(out, bounds, range);
    put(out, runs, b"\n")
}
