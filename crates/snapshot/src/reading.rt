// Reading a snapshot.
ghost use Rattle.std.specs.Prelude.{◌≡◌};
ghost use Rattle.snapshot.specs.Calls.{read_snapshot, read_vram};

use crate::parts::{state_bytes, vram_bytes};
use crate::trailer::{points_back, sum_is_right};
use chip::{Answer, Chip, Refusal};

// The state given is replaced, and so not tested. VRAM is written only once all tests have passed.
#[tactic(auto, using(crate::proofs::Laws::Parts::parts))]
pub fn read(chip: Chip, vram: &mut [u8], snapshot: &[u8]) -> Answer
    ensures value { result ≡ read_snapshot chip vram.old snapshot.now }
    ensures vram_after { vram.new ≡ read_vram vram.old snapshot.now }
{
    if vram.len() != 16384 {
        return chip.refused(Refusal::VramLength);
    }
    let Some(snapshot) = snapshot.as_array::<16406>() else {
        return chip.refused(Refusal::SnapshotLength);
    };
    if !points_back(snapshot) {
        return chip.refused(Refusal::Trailer);
    }
    if !sum_is_right(snapshot) {
        return chip.refused(Refusal::Checksum);
    }
    let next = chip::decode(state_bytes(snapshot), true, 0);
    if !next.is_well_formed() {
        return chip.refused(Refusal::IllFormed);
    }
    chip::copy(vram, vram_bytes(snapshot));
    next.accepted(0)
}
