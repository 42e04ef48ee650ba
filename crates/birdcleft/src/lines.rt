// Drawing a line from C.
ghost use Rattle.std.specs.Prelude.{◌≡◌};
ghost use Rattle.birdcleft.specs.Lines as lines;

use crate::{finish, result_of, vram_entry};

pub fn vdp_draw_line(
    block: &mut [u8],
    vram: &[u8],
    line: &mut [u8],
    origins: &mut [u8],
    number: u32,
) -> u32
    ensures value { result ≡ (lines.draw_line block.old vram.now line.old origins.old number).result }
    ensures block_after { block.new ≡ (lines.draw_line block.old vram.now line.old origins.old number).block }
    ensures line_after { line.new ≡ lines.draw_line_line block.old vram.now line.old origins.old number }
    ensures origins_after { origins.new ≡ lines.draw_line_origins block.old vram.now line.old origins.old number }
{
    if let Err(refusal) = vram_entry(block, vram) {
        return result_of(refusal);
    }
    let answer = scanline::draw_line(chip::load(block), vram, line, origins, number);
    finish(answer, block)
}
