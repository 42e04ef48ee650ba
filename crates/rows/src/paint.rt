// The colours that cells are painted with.
ghost use Rattle.rows.specs.Rows.{Paints};

use planes::{behind_planes, over};
use words::repeated;

// Each colour over what stands behind the plane, as a word.
pub fn paints(r: [u8; 8]) -> [u64; 16]
    ensures { Paints r result }
{
    let behind = behind_planes(r);
    let mut paints = [0u64; 16];
    for colour in 0..16u8 {
        paints[colour as usize] = repeated(over(colour, behind));
    }
    paints
}
