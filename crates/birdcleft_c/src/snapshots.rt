// The snapshot calls.
ghost use Rattle.std.specs.Prelude.{◌≡◌};
ghost use Rattle.birdcleft.specs.Snapshots as calls;

#[unsafe(no_mangle)]
pub extern "C" fn vdp_read_snapshot(block: &mut [u8], vram: &mut [u8], snapshot: &[u8]) -> u32
    ensures value { result ≡ (calls.read_snapshot block.old vram.old snapshot.now).result }
    ensures block_after { block.new ≡ (calls.read_snapshot block.old vram.old snapshot.now).block }
    ensures vram_after { vram.new ≡ calls.read_vram block.old vram.old snapshot.now }
{
    birdcleft::vdp_read_snapshot(block, vram, snapshot)
}

#[unsafe(no_mangle)]
pub extern "C" fn vdp_write_snapshot(block: &[u8], vram: &[u8], snapshot: &mut [u8]) -> u32
    ensures value { result ≡ calls.write_snapshot block.now vram.now snapshot.old }
    ensures snapshot_after { snapshot.new ≡ calls.written block.now vram.now snapshot.old }
{
    birdcleft::vdp_write_snapshot(block, vram, snapshot)
}
