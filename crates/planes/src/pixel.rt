// What settles a pixel's colour.
ghost use Rattle.std.specs.Prelude.{◌≡◌};
ghost use Rattle.planes.specs.Pixel as pixel;

use crate::origin::pixel_behind;

// A colour in front of another: 0 is transparent, and the other shows.
pub fn over(front: u8, behind: u8) -> u8
    ensures { result ≡ pixel.over front behind }
{
    if front == 0 { behind } else { front }
}

// The colour of what stands behind the pattern plane. (`pixel_behind` has its origin too, which those that
// paint colours do not want.)
pub fn behind_planes(registers: [u8; 8]) -> u8
    ensures { result ≡ pixel.behind_planes registers }
{
    pixel_behind(registers).colour
}
