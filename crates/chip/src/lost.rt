// First control bytes that a data write, a data read or a status read drops, and their count.
ghost use Rattle.std.specs.Prelude.{◌≡◌};
ghost use Rattle.chip.specs.Ports.{lost_by, first_dropped};

use crate::state::Chip;

// The count once what waits has been dropped. It stops at 65,535.
fn lost_by(waiting: Option<u8>, lost: u16) -> u16
    ensures { result ≡ lost_by waiting lost }
{
    match waiting {
        None => lost,
        Some(_) => lost.saturating_add(1),
    }
}

impl Chip {
    // Drops a first byte that waits, and counts it.
    pub fn drop_first(self) -> Chip
        ensures { result ≡ first_dropped self }
    {
        let mut next = self.with_waiting(None);
        next.lost = lost_by(self.waiting, self.lost);
        next
    }
}
