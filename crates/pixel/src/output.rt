// All that the program writes. (A slice and a place: see origins.rt.)
ghost use Rattle.std.specs.Prelude.{◌≡◌, ◌≤◌, length};
ghost use Rattle.chip.specs.Lists.{put_at};
ghost use Rattle.pixel.specs.Output.{colour_text, point_text, pixel_output};

use crate::arguments::{number_in, rightly_called};
use crate::names::put_name;
use crate::origins::put_origin;
use chip::{Chip, Screen, put};
use point::point;
use text::{put_decimal, put_refusal};

// A colour's number and name.
#[tactic(auto, using(crate::proofs::Laws::Output::colours), unfolding(crate::specs::Output::colour_text))]
fn put_colour(out: &mut [u8], colour: u8) -> usize
    requires { 128 ≤ length out.old }
    ensures value { result ≡ length (colour_text colour) }
    ensures out_after { out.new ≡ put_at 0 (colour_text colour) out.old }
{
    let a = put_decimal(out, 0, colour as usize);
    let b = put(out, a, b" ");
    let c = put_name(out, b, colour);
    put(out, c, b"\n")
}

// The colour at a line and a column and its origin, or the refusal of the point.
#[tactic(auto, using(crate::proofs::Laws::Output::points), unfolding(crate::specs::Output::point_text, crate::specs::Output::shown_text))]
fn put_point(out: &mut [u8], chip: Chip, vram: &[u8; 16384], line: u32, column: u32) -> usize
    requires { 128 ≤ length out.old }
    ensures value { result ≡ length (point_text line column chip vram.now) }
    ensures out_after { out.new ≡ put_at 0 (point_text line column chip vram.now) out.old }
{
    let answer = point(chip, vram, line, column);
    match answer.result {
        Err(refusal) => put_refusal(out, refusal),
        Ok(found) => {
            let end = put_colour(out, found.colour);
            put_origin(
                out,
                end,
                Screen::new(chip.registers, vram),
                line as usize,
                column as usize,
                found.origin,
            )
        }
    }
}

// The output's length is given by type: no program can lend one that is too short.
#[tactic(auto, using(crate::proofs::Laws::Output::whole))]
pub fn pixel(argc: usize, first: &[u8], second: &[u8], file: &[u8], out: &mut [u8; 128]) -> usize
    ensures value { result ≡ length (pixel_output argc first.now second.now file.now) }
    ensures out_after { out.new ≡ put_at 0 (pixel_output argc first.now second.now file.now) out.old }
{
    if !rightly_called(argc, first, second) {
        return put(out, 0, b"usage: pixel LINE COLUMN <SNAPSHOT\n");
    }
    let mut vram = [0u8; 16384];
    let read = snapshot::read(Chip::power_up_state(), &mut vram, file);
    match read.result {
        Err(refusal) => put_refusal(out, refusal),
        Ok(_) => put_point(out, read.chip, &vram, number_in(first), number_in(second)),
    }
}
