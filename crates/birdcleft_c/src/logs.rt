// The calls on logs.
ghost use Rattle.std.specs.Prelude.{◌≡◌};
ghost use Rattle.port_log.specs.Calls as direct;
ghost use Rattle.birdcleft.specs.Logs as logs;

#[unsafe(no_mangle)]
pub extern "C" fn vdp_run_log(
    block: &mut [u8],
    vram: &mut [u8],
    map: &mut [u8],
    line: &mut [u8],
    log: &[u8],
    outcome: &mut [u8],
) -> u32
    ensures value { result ≡ (logs.run_log block.old vram.old map.old line.old log.now outcome.old).result }
    ensures block_after { block.new ≡ (logs.run_log block.old vram.old map.old line.old log.now outcome.old).block }
    ensures vram_after { vram.new ≡ logs.run_vram block.old vram.old map.old line.old log.now outcome.old }
    ensures map_after { map.new ≡ logs.run_map block.old vram.old map.old line.old log.now outcome.old }
    ensures line_after { line.new ≡ logs.run_line block.old vram.old map.old line.old log.now outcome.old }
    ensures outcome_after { outcome.new ≡ logs.run_outcome block.old vram.old map.old line.old log.now outcome.old }
{
    birdcleft::vdp_run_log(block, vram, map, line, log, outcome)
}

#[unsafe(no_mangle)]
pub extern "C" fn vdp_read_log(log: &[u8], records: &mut [u8]) -> u32
    ensures value { result ≡ logs.read_log log.now records.old }
    ensures records_after { records.new ≡ direct.read_records log.now records.old }
{
    birdcleft::vdp_read_log(log, records)
}

#[unsafe(no_mangle)]
pub extern "C" fn vdp_write_log(records: &[u8], log: &mut [u8]) -> u32
    ensures value { result ≡ logs.write_log records.now log.old }
    ensures log_after { log.new ≡ direct.written_log records.now log.old }
{
    birdcleft::vdp_write_log(records, log)
}
