// The records of a log, and which are allowed.
ghost use Rattle.std.specs.Prelude.{◌≡◌, ◌+◌, ◌*◌, ◌<◌, length};
ghost use Rattle.port_log.specs.Records as records;

#[derive(Clone, Copy, PartialEq, Eq, Debug)]
pub enum Operation {
    DataWrite,
    ControlWrite,
    DataRead,
    StatusRead,
    DrawLine,
    EndOfDisplay,
    Reset,
}

// The two bytes of a record.
#[derive(Clone, Copy, PartialEq, Eq, Debug)]
pub struct Record {
    pub operation: u8,
    pub value: u8,
}

// The operation with a number. No other number is allowed in a record, and only allowed records run. (No TryFrom: the definition
// `operation_of` gives every number one, and `allowed` looks at the number.)
impl From<u8> for Operation {
    ghost from_gives = { λ number operation. operation ≡ records.operation_of number };

    #[tactic(auto, unfolding(crate::specs::Records::operation_of))]
    fn from(number: u8) -> Operation {
        match number {
            0 => Operation::DataWrite,
            1 => Operation::ControlWrite,
            2 => Operation::DataRead,
            3 => Operation::StatusRead,
            4 => Operation::DrawLine,
            5 => Operation::EndOfDisplay,
            _ => Operation::Reset,
        }
    }
}

pub fn is_read(operation: Operation) -> bool
    ensures { result ≡ records.is_read operation }
{
    matches!(operation, Operation::DataRead | Operation::StatusRead)
}

fn value_allowed(operation: Operation, value: u8) -> bool
    ensures { result ≡ records.value_allowed operation value }
{
    match operation {
        Operation::DataWrite
        | Operation::ControlWrite
        | Operation::DataRead
        | Operation::StatusRead => true,
        Operation::DrawLine => value <= 191,
        Operation::EndOfDisplay | Operation::Reset => value == 0,
    }
}

#[tactic(auto, unfolding(crate::specs::Records::allowed))]
fn is_allowed(record: Record) -> bool
    ensures { result ≡ records.allowed «record» }
{
    let operation = Operation::from(record.operation);
    (record.operation <= 6) & value_allowed(operation, record.value)
}

// Record i.
pub fn record_at(bytes: &[u8], i: usize) -> Record
    requires { 2 * i + 1 < length bytes.now }
    ensures { result ≡ records.record_at bytes.now i }
{
    Record {
        operation: bytes[2 * i],
        value: bytes[2 * i + 1],
    }
}

// Whether every record of a part is allowed. The loop has no early end, so that the compiler tests many records at a time.
#[tactic(auto, using(crate::proofs::Laws::Records::allowed_next, crate::proofs::Laws::Records::allowed_none))]
fn part_allowed(bytes: &[u8]) -> bool
    ensures { result ≡ records.all_allowed (records.records_of bytes.now) }
{
    let mut allowed = true;
    for i in 0..bytes.len() / 2 {
        allowed &= is_allowed(record_at(bytes, i));
    }
    allowed
}

// Whether every record is allowed. They are tested in parts of 64 bytes, 32 records: the first part with one that is not ends the test.
pub fn all_allowed(bytes: &[u8]) -> bool
    ensures { result ≡ records.all_allowed (records.records_of bytes.now) }
{
    for part in bytes.chunks(64) {
        if !part_allowed(part) {
            return false;
        }
    }
    true
}
