// Writing a log from record bytes.
ghost use Rattle.std.specs.Prelude.{◌≡◌, ◌+◌, ◌≤◌, length};
ghost use Rattle.port_log.specs.Format.{log_of};
ghost use Rattle.port_log.specs.Calls.{write_refusal, written_log};

use crate::form::size_allowed;
use crate::records::all_allowed;
use chip::{Refusal, put};

// The records, and then the trailer. (A slice's own `fill` stores one value in every place.)
fn fill(records: &[u8], log: &mut [u8])
    requires { (length log.old ≡ length records.now + 4) × (length records.now ≤ 40000) }
    ensures { log.new ≡ log_of records.now }
{
    let trailer = put(log, 0, records);
    let distance = (trailer as u16).to_le_bytes();
    let field = put(log, trailer, &distance);
    let sum = snapshot::checksum(records).to_le_bytes();
    put(log, field, &sum);
}

pub fn write(records: &[u8], log: &mut [u8]) -> Result<(), Refusal>
    ensures value { result ≡ write_refusal records.now log.old }
    ensures log_after { log.new ≡ written_log records.now log.old }
{
    if !size_allowed(log.len()) {
        return Err(Refusal::LogForm);
    }
    if records.len() != log.len() - 4 {
        return Err(Refusal::LogForm);
    }
    if !all_allowed(records) {
        return Err(Refusal::LogRecord);
    }
    fill(records, log);
    Ok(())
}
