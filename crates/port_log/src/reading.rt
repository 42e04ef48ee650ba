// Reading a log into record bytes.
ghost use Rattle.std.specs.Prelude.{◌≡◌};
ghost use Rattle.port_log.specs.Calls.{read_refusal, read_records};

use crate::form::{record_bytes, tested};
use chip::Refusal;

pub fn read(log: &[u8], records: &mut [u8]) -> Result<(), Refusal>
    ensures value { result ≡ read_refusal log.now records.old }
    ensures records_after { records.new ≡ read_records log.now records.old }
{
    if log.len() < 4 {
        return Err(Refusal::LogForm);
    }
    if records.len() != log.len() - 4 {
        return Err(Refusal::LogForm);
    }
    tested(log)?;
    chip::copy(records, record_bytes(log));
    Ok(())
}
