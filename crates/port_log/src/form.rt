// The form of a log: its length, and the trailer, from which the records are found.
ghost use Rattle.std.specs.Prelude.{◌≡◌, ◌++◌};
ghost use Rattle.chip.specs.Refusals.{refusal_of};
ghost use Rattle.port_log.specs.Format.{record_bytes};
ghost use Rattle.port_log.specs.Tests.{size_allowed, distance_right, log_sum_right, log_tests};

use crate::records::all_allowed;
use chip::{Refusal, low_first_at};

// Whether a log can have so many bytes.
#[tactic(auto, unfolding(crate::specs::Tests::size_allowed))]
pub fn size_allowed(n: usize) -> bool
    ensures { result ≡ size_allowed n }
{
    (4 <= n) & (n <= 40004) & (n % 2 == 0)
}

// The bytes before the trailer.
#[tactic(auto, unfolding(crate::specs::Format::record_bytes))]
pub fn record_bytes(log: &[u8]) -> &[u8]
    ensures { result.now ≡ record_bytes log.now }
{
    &log[..log.len().saturating_sub(4)]
}

// Whether the distance back to the first record is right.
#[tactic(auto, unfolding(crate::specs::Tests::distance_right))]
fn distance_right(records: &[u8], trailer: &[u8; 4]) -> bool
    ensures { result ≡ distance_right (records.now ++ trailer.now) }
{
    low_first_at(trailer, 0) as usize == records.len()
}

// Whether the sum is that of the record bytes alone.
#[tactic(auto, unfolding(crate::specs::Tests::log_sum_right, crate::specs::Format::record_bytes))]
fn sum_right(records: &[u8], trailer: &[u8; 4]) -> bool
    ensures { result ≡ log_sum_right (records.now ++ trailer.now) }
{
    low_first_at(trailer, 2) == snapshot::checksum(records)
}

// The tests of a log. A wrong form decides before a record that is not allowed.
#[tactic(auto, using(crate::proofs::Laws::Form::too_short, crate::proofs::Laws::Form::joined), unfolding(crate::specs::Format::record_bytes))]
pub fn tested(log: &[u8]) -> Result<(), Refusal>
    ensures { result ≡ refusal_of (log_tests log.now) }
{
    let Some((records, trailer)) = log.split_last_chunk::<4>() else {
        return Err(Refusal::LogForm);
    };
    if !size_allowed(log.len()) {
        return Err(Refusal::LogForm);
    }
    if !(distance_right(records, trailer) & sum_right(records, trailer)) {
        return Err(Refusal::LogForm);
    }
    if !all_allowed(records) {
        return Err(Refusal::LogRecord);
    }
    Ok(())
}
