// The calls on logs from C.
ghost use Rattle.std.specs.Prelude.{◌≡◌, length};
ghost use Rattle.port_log.specs.Calls as direct;
ghost use Rattle.birdcleft.specs.Logs as logs;

use crate::{finish, result_of, vram_entry};
use chip::{Refusal, put};
use port_log::Ran;

// The tests at entry of a run.
fn run_entry(block: &[u8], vram: &[u8], outcome: &[u8]) -> Result<(), Refusal>
    ensures { result ≡ logs.run_entry block.now vram.now outcome.now }
{
    vram_entry(block, vram)?;
    if outcome.len() != 4 {
        return Err(Refusal::SliceLength);
    }
    Ok(())
}

// Reports where an accepted run ended.
fn report(ran: Ran, outcome: &mut [u8])
    requires { length outcome.old ≡ 4 }
    ensures { outcome.new ≡ logs.reported ran outcome.old }
{
    if let Ok(reached) = ran.result {
        put(outcome, 0, &reached.done.to_le_bytes());
        put(outcome, 2, &reached.place.to_le_bytes());
    }
}

pub fn vdp_run_log(
    block: &mut [u8],
    vram: &mut [u8],
    map: &mut [u8],
    line: &mut [u8],
    log: &[u8],
    outcome: &mut [u8],
) -> u32
    ensures value { result ≡ (logs.run_log block.old vram.old map.old line.old log.now outcome.old).result }
    ensures block_after { block.new ≡ (logs.run_log block.old vram.old map.old line.old log.now outcome.old).block }
    ensures vram_after { vram.new ≡ logs.run_vram block.old vram.old map.old line.old log.now outcome.old }
    ensures map_after { map.new ≡ logs.run_map block.old vram.old map.old line.old log.now outcome.old }
    ensures line_after { line.new ≡ logs.run_line block.old vram.old map.old line.old log.now outcome.old }
    ensures outcome_after { outcome.new ≡ logs.run_outcome block.old vram.old map.old line.old log.now outcome.old }
{
    if let Err(refusal) = run_entry(block, vram, outcome) {
        return result_of(refusal);
    }
    let ran = port_log::run(chip::load(block), vram, map, line, log);
    report(ran, outcome);
    finish(ran.answer(), block)
}

pub fn vdp_read_log(log: &[u8], records: &mut [u8]) -> u32
    ensures value { result ≡ logs.read_log log.now records.old }
    ensures records_after { records.new ≡ direct.read_records log.now records.old }
{
    port_log::read(log, records).map_or_else(result_of, |()| 0)
}

pub fn vdp_write_log(records: &[u8], log: &mut [u8]) -> u32
    ensures value { result ≡ logs.write_log records.now log.old }
    ensures log_after { log.new ≡ direct.written_log records.now log.old }
{
    port_log::write(records, log).map_or_else(result_of, |()| 0)
}
