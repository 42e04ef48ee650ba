// Writing a snapshot.
ghost use Rattle.std.specs.Prelude.{◌≡◌};
ghost use Rattle.snapshot.specs.Format.{snapshot_of};
ghost use Rattle.snapshot.specs.Calls.{write_snapshot, written};

use crate::sums::checksum;
use crate::trailer::POINTERS;
use chip::{Answer, Chip, Refusal, put};

// Fills the slice, each part at its distance before the trailer; the sum comes last, over all that stands before it.
// (A slice's own `fill` stores one value in every place.)
fn fill(chip: Chip, vram: &[u8; 16384], out: &mut [u8; 16406])
    ensures { out.new ≡ snapshot_of chip vram.now }
{
    let trailer = out.len() - 8;
    put(out, trailer - 16398, vram);
    put(out, trailer - 14, &chip.encode());
    put(out, trailer, &POINTERS);
    let field = trailer + 6;
    let sum = checksum(&out[..field]).to_le_bytes();
    put(out, field, &sum);
}

pub fn write(chip: Chip, vram: &[u8], out: &mut [u8]) -> Answer
    ensures value { result ≡ write_snapshot chip vram.now out.old }
    ensures out_after { out.new ≡ written chip vram.now out.old }
{
    let Some(vram) = vram.as_array::<16384>() else {
        return chip.refused(Refusal::VramLength);
    };
    let Some(out) = out.as_mut_array::<16406>() else {
        return chip.refused(Refusal::SnapshotLength);
    };
    if !chip.is_well_formed() {
        return chip.refused(Refusal::IllFormed);
    }
    fill(chip, vram, out);
    chip.accepted(0)
}
