// Drawing a line.
ghost use Rattle.std.specs.Prelude.{◌≡◌};
ghost use Rattle.birdcleft.specs.Lines as lines;

#[unsafe(no_mangle)]
pub extern "C" fn vdp_draw_line(
    block: &mut [u8],
    vram: &[u8],
    line: &mut [u8],
    origins: &mut [u8],
    number: u32,
) -> u32
    ensures value { result ≡ (lines.draw_line block.old vram.now line.old origins.old number).result }
    ensures block_after { block.new ≡ (lines.draw_line block.old vram.now line.old origins.old number).block }
    ensures line_after { line.new ≡ lines.draw_line_line block.old vram.now line.old origins.old number }
    ensures origins_after { origins.new ≡ lines.draw_line_origins block.old vram.now line.old origins.old number }
{
    birdcleft::vdp_draw_line(block, vram, line, origins, number)
}
