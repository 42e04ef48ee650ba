// Full draw and refresh from C.
ghost use Rattle.std.specs.Prelude.{◌≡◌};
ghost use Rattle.birdcleft.specs.Frames as frames;

use crate::{finish, result_of, vram_entry};

pub fn vdp_full_draw(
    block: &mut [u8],
    vram: &[u8],
    map: &mut [u8],
    frame: &mut [u8],
    notes: &mut [u8],
) -> u32
    ensures value { result ≡ (frames.full_draw block.old vram.now map.old frame.old notes.old).result }
    ensures block_after { block.new ≡ (frames.full_draw block.old vram.now map.old frame.old notes.old).block }
    ensures map_after { map.new ≡ frames.draw_map block.old vram.now map.old frame.old notes.old }
    ensures frame_after { frame.new ≡ frames.full_draw_frame block.old vram.now map.old frame.old notes.old }
    ensures notes_after { notes.new ≡ frames.full_draw_notes block.old vram.now map.old frame.old notes.old }
{
    if let Err(refusal) = vram_entry(block, vram) {
        return result_of(refusal);
    }
    let answer = frame::full_draw(chip::load(block), vram, map, frame, notes);
    finish(answer, block)
}

pub fn vdp_refresh(
    block: &mut [u8],
    vram: &[u8],
    map: &mut [u8],
    frame: &mut [u8],
    notes: &mut [u8],
) -> u32
    ensures value { result ≡ (frames.refresh block.old vram.now map.old frame.old notes.old).result }
    ensures block_after { block.new ≡ (frames.refresh block.old vram.now map.old frame.old notes.old).block }
    ensures map_after { map.new ≡ frames.draw_map block.old vram.now map.old frame.old notes.old }
    ensures frame_after { frame.new ≡ frames.refresh_frame block.old vram.now map.old frame.old notes.old }
    ensures notes_after { notes.new ≡ frames.refresh_notes block.old vram.now map.old frame.old notes.old }
{
    if let Err(refusal) = vram_entry(block, vram) {
        return result_of(refusal);
    }
    let answer = frame::refresh(chip::load(block), vram, map, frame, notes);
    finish(answer, block)
}
