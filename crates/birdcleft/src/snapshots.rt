// The snapshot calls from C.
ghost use Rattle.std.specs.Prelude.{◌≡◌};
ghost use Rattle.birdcleft.specs.Snapshots as calls;

use crate::{finish, result_of, vram_entry};

// The state in the block is replaced, and so not tested: any 17 bytes will do.
pub fn vdp_read_snapshot(block: &mut [u8], vram: &mut [u8], snapshot: &[u8]) -> u32
    ensures value { result ≡ (calls.read_snapshot block.old vram.old snapshot.now).result }
    ensures block_after { block.new ≡ (calls.read_snapshot block.old vram.old snapshot.now).block }
    ensures vram_after { vram.new ≡ calls.read_vram block.old vram.old snapshot.now }
{
    if let Err(refusal) = vram_entry(block, vram) {
        return result_of(refusal);
    }
    finish(snapshot::read(chip::load(block), vram, snapshot), block)
}

pub fn vdp_write_snapshot(block: &[u8], vram: &[u8], snapshot: &mut [u8]) -> u32
    ensures value { result ≡ calls.write_snapshot block.now vram.now snapshot.old }
    ensures snapshot_after { snapshot.new ≡ calls.written block.now vram.now snapshot.old }
{
    if let Err(refusal) = vram_entry(block, vram) {
        return result_of(refusal);
    }
    snapshot::write(chip::load(block), vram, snapshot).number()
}
