// Refusals, and the answer that every call gives.
ghost use Rattle.std.specs.Prelude.{◌≡◌, Ok, Err};
ghost use Rattle.chip.specs.Refusals.{refusal_number, result_of};

use crate::state::Chip;

#[derive(Clone, Copy, PartialEq, Eq, Debug)]
pub enum Refusal {
    VramLength,
    SliceLength,
    IllFormed,
    LineNumber,
    SnapshotLength,
    Trailer,
    Checksum,
    LogForm,
    LogRecord,
    ColumnNumber,
}

// The next state, and the byte or other number read; or the state as given, and why the call was refused.
#[derive(Clone, Copy)]
pub struct Answer {
    pub chip: Chip,
    pub result: Result<u8, Refusal>,
}

// The refusal's number.
impl From<Refusal> for u8 {
    ghost from_gives = { λ r n. n ≡ refusal_number r };

    fn from(refusal: Refusal) -> u8 {
        match refusal {
            Refusal::VramLength => 1,
            Refusal::SliceLength => 2,
            Refusal::IllFormed => 3,
            Refusal::LineNumber => 4,
            Refusal::SnapshotLength => 5,
            Refusal::Trailer => 6,
            Refusal::Checksum => 7,
            Refusal::LogForm => 8,
            Refusal::LogRecord => 9,
            Refusal::ColumnNumber => 13,
        }
    }
}

impl Answer {
    // One number for a caller in C: the byte read, or 256 times the refusal number. (No `From`: an answer is more than this.)
    pub fn number(self) -> u32
        ensures { result ≡ result_of self }
    {
        match self.result {
            Ok(value) => u32::from(value),
            Err(refusal) => u32::from(u8::from(refusal)) * 256,
        }
    }
}

impl Chip {
    // The state is handed back, with the refusal.
    pub fn refused(self, refusal: Refusal) -> Answer
        ensures { result ≡ record { chip = self; result = Err refusal } }
    {
        let result = Err(refusal);
        Answer { chip: self, result }
    }

    pub fn accepted(self, value: u8) -> Answer
        ensures { result ≡ record { chip = self; result = Ok value } }
    {
        Answer {
            chip: self,
            result: Ok(value),
        }
    }
}
