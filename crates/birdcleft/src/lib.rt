// The calls from C, which the crate `birdcleft_c` exports. Each on a state tests VRAM's length, where VRAM is lent, and the
// block's, without which the block cannot be decoded; then it loads the state and makes the direct call. A call that is lent the
// block to write stores the next state if the call was accepted; the four that are lent it to read (`vdp_interrupt_line`,
// `vdp_point`, `vdp_origin`, `vdp_write_snapshot`) store nothing there.
// Each makes these steps itself: a closure for the direct call would hold the lent slices, and where it is not run, nothing is
// known of what they hold after (tried, not proved).
#![tactic(auto, unfolding(crate::specs::Calls::block_entry, crate::specs::Calls::vram_entry, crate::specs::Calls::result_through, crate::specs::Calls::block_through, crate::specs::Calls::list_through, crate::specs::Logs::run_entry))]

ghost use Rattle.std.specs.Prelude.{◌≡◌, ◌*◌, length};
ghost use Rattle.chip.specs.Refusals.{refusal_number, result_of, if_accepted};
ghost use Rattle.chip.specs.Layout.{block_of};
ghost use Rattle.birdcleft.specs.Calls as calls;

use chip::{Answer, Refusal};

mod frames;
mod lines;
mod logs;
mod points;
mod snapshots;

pub use frames::{vdp_full_draw, vdp_refresh};
pub use lines::vdp_draw_line;
pub use logs::{vdp_read_log, vdp_run_log, vdp_write_log};
pub use points::{vdp_origin, vdp_point};
pub use snapshots::{vdp_read_snapshot, vdp_write_snapshot};

// 256 times a refusal's number.
fn result_of(refusal: Refusal) -> u32
    ensures { result ≡ refusal_number refusal * 256 }
{
    u32::from(u8::from(refusal)) * 256
}

// The tests at entry.
fn block_entry(block: &[u8]) -> Result<(), Refusal>
    ensures { result ≡ calls.block_entry block.now }
{
    if block.len() != 17 {
        return Err(Refusal::SliceLength);
    }
    Ok(())
}

fn vram_entry(block: &[u8], vram: &[u8]) -> Result<(), Refusal>
    ensures { result ≡ calls.vram_entry block.now vram.now }
{
    if vram.len() != 16384 {
        return Err(Refusal::VramLength);
    }
    block_entry(block)
}

// Stores the next state if the call was accepted, and gives the answer as one number.
fn finish(answer: Answer, block: &mut [u8]) -> u32
    requires { length block.old ≡ 17 }
    ensures value { result ≡ result_of answer }
    ensures block_after { block.new ≡ if_accepted answer.result (block_of answer.chip) block.old }
{
    if answer.result.is_ok() {
        answer.chip.store(block);
    }
    answer.number()
}

pub fn vdp_power_up(block: &mut [u8], vram: &mut [u8]) -> u32
    ensures value { result ≡ (calls.power_up block.old vram.old).result }
    ensures block_after { block.new ≡ (calls.power_up block.old vram.old).block }
    ensures vram_after { vram.new ≡ calls.power_up_vram block.old vram.old }
{
    if let Err(refusal) = vram_entry(block, vram) {
        return result_of(refusal);
    }
    finish(chip::load(block).power_up(vram), block)
}

pub fn vdp_control_write(block: &mut [u8], vram: &[u8], byte: u8) -> u32
    ensures value { result ≡ (calls.control_write block.old vram.now byte).result }
    ensures block_after { block.new ≡ (calls.control_write block.old vram.now byte).block }
{
    if let Err(refusal) = vram_entry(block, vram) {
        return result_of(refusal);
    }
    finish(chip::load(block).control_write(vram, byte), block)
}

pub fn vdp_data_write(block: &mut [u8], vram: &mut [u8], map: &mut [u8], byte: u8) -> u32
    ensures value { result ≡ (calls.data_write block.old vram.old map.old byte).result }
    ensures block_after { block.new ≡ (calls.data_write block.old vram.old map.old byte).block }
    ensures vram_after { vram.new ≡ calls.data_write_vram block.old vram.old map.old byte }
    ensures map_after { map.new ≡ calls.data_write_map block.old vram.old map.old }
{
    if let Err(refusal) = vram_entry(block, vram) {
        return result_of(refusal);
    }
    finish(chip::load(block).data_write(vram, map, byte), block)
}

pub fn vdp_data_read(block: &mut [u8], vram: &[u8]) -> u32
    ensures value { result ≡ (calls.data_read block.old vram.now).result }
    ensures block_after { block.new ≡ (calls.data_read block.old vram.now).block }
{
    if let Err(refusal) = vram_entry(block, vram) {
        return result_of(refusal);
    }
    finish(chip::load(block).data_read(vram), block)
}

pub fn vdp_status_read(block: &mut [u8]) -> u32
    ensures value { result ≡ (calls.status_read block.old).result }
    ensures block_after { block.new ≡ (calls.status_read block.old).block }
{
    if let Err(refusal) = block_entry(block) {
        return result_of(refusal);
    }
    finish(chip::load(block).status_read(), block)
}

pub fn vdp_end_of_display(block: &mut [u8]) -> u32
    ensures value { result ≡ (calls.end_of_display block.old).result }
    ensures block_after { block.new ≡ (calls.end_of_display block.old).block }
{
    if let Err(refusal) = block_entry(block) {
        return result_of(refusal);
    }
    finish(chip::load(block).end_of_display(), block)
}

pub fn vdp_interrupt_line(block: &[u8]) -> u32
    ensures { result ≡ calls.interrupt_line block.now }
{
    if let Err(refusal) = block_entry(block) {
        return result_of(refusal);
    }
    chip::load(block).interrupt_line().number()
}

pub fn vdp_reset(block: &mut [u8]) -> u32
    ensures value { result ≡ (calls.reset block.old).result }
    ensures block_after { block.new ≡ (calls.reset block.old).block }
{
    if let Err(refusal) = block_entry(block) {
        return result_of(refusal);
    }
    finish(chip::load(block).reset(), block)
}
