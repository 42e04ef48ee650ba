// One point from C: its colour, and where that comes from.
ghost use Rattle.std.specs.Prelude.{◌≡◌};
ghost use Rattle.birdcleft.specs.Points as points;

use crate::{result_of, vram_entry};

// The numbers of both calls at once: with one caller the direct call is put in here by the compiler, and the state need not go
// through memory. A pair of numbers comes back in a register, and a `Result` would not.
fn point_numbers(block: &[u8], vram: &[u8], line: u32, column: u32) -> (u32, u32)
    ensures colour_value { result.0 ≡ points.point block.now vram.now line column }
    ensures origin_value { result.1 ≡ points.origin block.now vram.now line column }
{
    if let Err(refusal) = vram_entry(block, vram) {
        let number = result_of(refusal);
        return (number, number);
    }
    let answer = point::point(chip::load(block), vram, line, column);
    (
        answer.colour_answer().number(),
        answer.origin_answer().number(),
    )
}

pub fn vdp_point(block: &[u8], vram: &[u8], line: u32, column: u32) -> u32
    ensures { result ≡ points.point block.now vram.now line column }
{
    point_numbers(block, vram, line, column).0
}

pub fn vdp_origin(block: &[u8], vram: &[u8], line: u32, column: u32) -> u32
    ensures { result ≡ points.origin block.now vram.now line column }
{
    point_numbers(block, vram, line, column).1
}
