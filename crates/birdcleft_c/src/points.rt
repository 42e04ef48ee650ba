// One point: its colour, and where that comes from.
ghost use Rattle.std.specs.Prelude.{◌≡◌};
ghost use Rattle.birdcleft.specs.Points as points;

#[unsafe(no_mangle)]
pub extern "C" fn vdp_point(block: &[u8], vram: &[u8], line: u32, column: u32) -> u32
    ensures { result ≡ points.point block.now vram.now line column }
{
    birdcleft::vdp_point(block, vram, line, column)
}

#[unsafe(no_mangle)]
pub extern "C" fn vdp_origin(block: &[u8], vram: &[u8], line: u32, column: u32) -> u32
    ensures { result ≡ points.origin block.now vram.now line column }
{
    birdcleft::vdp_origin(block, vram, line, column)
}
