// The static library that a C host links. Each export makes the call of the same name in the crate `birdcleft`, and states its
// clauses again.
#![tactic(auto)]

ghost use Rattle.std.specs.Prelude.{◌≡◌};
ghost use Rattle.birdcleft.specs.Calls as calls;

mod frames;
mod lines;
mod logs;
mod points;
mod snapshots;

#[unsafe(no_mangle)]
pub extern "C" fn vdp_power_up(block: &mut [u8], vram: &mut [u8]) -> u32
    ensures value { result ≡ (calls.power_up block.old vram.old).result }
    ensures block_after { block.new ≡ (calls.power_up block.old vram.old).block }
    ensures vram_after { vram.new ≡ calls.power_up_vram block.old vram.old }
{
    birdcleft::vdp_power_up(block, vram)
}

#[unsafe(no_mangle)]
pub extern "C" fn vdp_control_write(block: &mut [u8], vram: &[u8], byte: u8) -> u32
    ensures value { result ≡ (calls.control_write block.old vram.now byte).result }
    ensures block_after { block.new ≡ (calls.control_write block.old vram.now byte).block }
{
    birdcleft::vdp_control_write(block, vram, byte)
}

#[unsafe(no_mangle)]
pub extern "C" fn vdp_data_write(block: &mut [u8], vram: &mut [u8], map: &mut [u8], byte: u8) -> u32
    ensures value { result ≡ (calls.data_write block.old vram.old map.old byte).result }
    ensures block_after { block.new ≡ (calls.data_write block.old vram.old map.old byte).block }
    ensures vram_after { vram.new ≡ calls.data_write_vram block.old vram.old map.old byte }
    ensures map_after { map.new ≡ calls.data_write_map block.old vram.old map.old }
{
    birdcleft::vdp_data_write(block, vram, map, byte)
}

#[unsafe(no_mangle)]
pub extern "C" fn vdp_data_read(block: &mut [u8], vram: &[u8]) -> u32
    ensures value { result ≡ (calls.data_read block.old vram.now).result }
    ensures block_after { block.new ≡ (calls.data_read block.old vram.now).block }
{
    birdcleft::vdp_data_read(block, vram)
}

#[unsafe(no_mangle)]
pub extern "C" fn vdp_status_read(block: &mut [u8]) -> u32
    ensures value { result ≡ (calls.status_read block.old).result }
    ensures block_after { block.new ≡ (calls.status_read block.old).block }
{
    birdcleft::vdp_status_read(block)
}

#[unsafe(no_mangle)]
pub extern "C" fn vdp_end_of_display(block: &mut [u8]) -> u32
    ensures value { result ≡ (calls.end_of_display block.old).result }
    ensures block_after { block.new ≡ (calls.end_of_display block.old).block }
{
    birdcleft::vdp_end_of_display(block)
}

#[unsafe(no_mangle)]
pub extern "C" fn vdp_interrupt_line(block: &[u8]) -> u32
    ensures { result ≡ calls.interrupt_line block.now }
{
    birdcleft::vdp_interrupt_line(block)
}

#[unsafe(no_mangle)]
pub extern "C" fn vdp_reset(block: &mut [u8]) -> u32
    ensures value { result ≡ (calls.reset block.old).result }
    ensures block_after { block.new ≡ (calls.reset block.old).block }
{
    birdcleft::vdp_reset(block)
}
