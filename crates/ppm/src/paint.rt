// Colours as pixels.
ghost use Rattle.std.specs.Prelude.{◌*◌, ◌≤◌, ◌≡◌, length};
ghost use Rattle.chip.specs.Lists.{put_at};
ghost use Rattle.ppm.specs.Picture.{painted};

use crate::palette::rgb_of;
use chip::copy;

// The pixels of colours, at the front of a slice.
#[tactic(auto, using(crate::proofs::Laws::Paint::painting))]
pub fn paint(colours: &[u8], out: &mut [u8])
    requires { 3 * length colours.now ≤ length out.old }
    ensures { out.new ≡ put_at 0 (painted colours.now) out.old }
{
    for (x, colour) in colours.iter().enumerate() {
        copy(&mut out[3 * x..3 * x + 3], &rgb_of(*colour));
    }
}
