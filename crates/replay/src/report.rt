// The line that reports a run. (A slice and a place: see crates/pixel/src/origins.rt.)
ghost use Rattle.std.specs.Prelude.{◌≡◌, ◌≤◌, length};
ghost use Rattle.chip.specs.Lists.{put_at};
ghost use Rattle.replay.specs.Report.{report_text};

use chip::put;
use text::{put_decimal, put_long_decimal};

#[tactic(auto, using(text::proofs::Laws::Numbers::lengths), unfolding(crate::specs::Report::report_text))]
pub fn put_report(out: &mut [u8], done: u16, place: u16, found: u8) -> usize
    requires { 64 ≤ length out.old }
    ensures value { result ≡ length (report_text done place found) }
    ensures out_after { out.new ≡ put_at 0 (report_text done place found) out.old }
{
    let a = put(out, 0, b"done ");
    let b = put_long_decimal(out, a, done as usize);
    let c = put(out, b, b" place ");
    let d = put_long_decimal(out, c, place as usize);
    let e = put(out, d, b" found ");
    let f = put_decimal(out, e, found as usize);
    put(out, f, b"\n")
}
