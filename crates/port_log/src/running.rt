// The run of a log.
ghost use Rattle.std.specs.Prelude.{◌≡◌, ◌≤◌, length};
ghost use Rattle.port_log.specs.Records.{records_of};
ghost use Rattle.port_log.specs.Single.{target};
ghost use Rattle.port_log.specs.Run as runs;

use crate::form::{record_bytes, tested};
use crate::records::{Operation, is_read, record_at};
use crate::single::make_call;
use crate::stretch::write_stretch;
use chip::{Answer, Chip, Refusal};

// How far a run came: how many records are done, the place of the read that differed or the count of records, and the byte that
// was found there or 0. (These are the numbers of a call from C, `outcome_of`: no read differed where the place is the count.)
#[derive(Clone, Copy, PartialEq, Eq, Debug)]
pub struct Reached {
    pub done: u16,
    pub place: u16,
    pub found: u8,
}

// The next state, and how far the run came; or the state as given, and why the run was refused.
#[derive(Clone, Copy)]
pub struct Ran {
    pub chip: Chip,
    pub result: Result<Reached, Refusal>,
}

impl Ran {
    // State, refusal and byte found, as a call answers them. (A method, as PointAnswer has: a call from C hands back one number.)
    pub fn answer(self) -> Answer
        ensures { result ≡ runs.answer_of self }
    {
        Answer {
            chip: self.chip,
            result: self.result.map(|reached| reached.found),
        }
    }
}

fn refused(chip: Chip, refusal: Refusal) -> Ran
    ensures { result ≡ runs.refused_run chip refusal }
{
    Ran {
        chip,
        result: Err(refusal),
    }
}

// The records' calls, one after another, until a read differs.
fn run_records(chip: Chip, vram: &mut [u8], map: &mut [u8], line: &mut [u8], records: &[u8]) -> Ran
    requires { length records.now ≤ 40000 }
    ensures value { result ≡ runs.ran_of (runs.run_from 0 (records_of records.now) (target chip vram.old map.old line.old)) }
    ensures vram_after { vram.new ≡ (runs.run_from 0 (records_of records.now) (target chip vram.old map.old line.old)).target.vram }
    ensures map_after { map.new ≡ (runs.run_from 0 (records_of records.now) (target chip vram.old map.old line.old)).target.map }
    ensures line_after { line.new ≡ (runs.run_from 0 (records_of records.now) (target chip vram.old map.old line.old)).target.line }
{
    let count = records.len() / 2;
    let mut chip = chip;
    let mut i = 0;
    // No `for`: data writes run many at a time.
    while i < count {
        let record = record_at(records, i);
        if record.operation == 0 {
            let stretch = write_stretch(chip, vram, map, records, i);
            chip = stretch.chip;
            i = stretch.next;
            continue;
        }
        let operation = Operation::from(record.operation);
        let answer = make_call(chip, vram, map, line, operation, record.value);
        chip = answer.chip;
        // One test inside the other: with both in one, the compiler tests the address and the waiting byte anew at each data write.
        if is_read(operation) {
            let byte = answer.result.unwrap_or(0);
            if byte != record.value {
                let reached = Reached {
                    done: (i + 1) as u16,
                    place: i as u16,
                    found: byte,
                };
                return Ran {
                    chip,
                    result: Ok(reached),
                };
            }
        }
        i += 1;
    }
    let reached = Reached {
        done: i as u16,
        place: i as u16,
        found: 0,
    };
    Ran {
        chip,
        result: Ok(reached),
    }
}

// All tests are made before the first record runs. Lines are drawn into the lent line slice, one over the other.
pub fn run(chip: Chip, vram: &mut [u8], map: &mut [u8], line: &mut [u8], log: &[u8]) -> Ran
    ensures value { result ≡ runs.run_log chip vram.old map.old line.old log.now }
    ensures vram_after { vram.new ≡ runs.run_vram chip vram.old map.old line.old log.now }
    ensures map_after { map.new ≡ runs.run_map chip vram.old map.old line.old log.now }
    ensures line_after { line.new ≡ runs.run_line chip vram.old map.old line.old log.now }
{
    if vram.len() != 16384 {
        return refused(chip, Refusal::VramLength);
    }
    if map.len() != 2048 {
        return refused(chip, Refusal::SliceLength);
    }
    if line.len() != 256 {
        return refused(chip, Refusal::SliceLength);
    }
    if !chip.is_well_formed() {
        return refused(chip, Refusal::IllFormed);
    }
    if let Err(refusal) = tested(log) {
        return refused(chip, refusal);
    }
    run_records(chip, vram, map, line, record_bytes(log))
}
