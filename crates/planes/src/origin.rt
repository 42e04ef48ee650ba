// Where a pixel's colour comes from, settled together with the colour.
ghost use Rattle.std.specs.Prelude.{◌≡◌};
ghost use Rattle.planes.specs.Origin as origins;

use chip::bit;

#[derive(Clone, Copy)]
pub enum Origin {
    // The sprite's number in the attribute table.
    Sprite(u8),
    Pattern,
    Backdrop,
    // Neither sprites, pattern plane nor backdrop have a colour, and external video is off.
    Black,
    // The same with external video on.
    External,
}

impl Origin {
    // A method and no `From`: `origin.code()` says which number it is.
    pub fn code(self) -> u8
        ensures { result ≡ origins.origin_code self }
    {
        match self {
            Origin::Sprite(n) => n,
            Origin::Pattern => 32,
            Origin::Backdrop => 33,
            Origin::Black => 34,
            Origin::External => 35,
        }
    }
}

#[derive(Clone, Copy)]
pub struct Pixel {
    pub colour: u8,
    pub origin: Origin,
}

// A colour in front of a pixel: 0 is transparent, and the pixel shows.
pub fn in_front(colour: u8, origin: Origin, behind: Pixel) -> Pixel
    ensures { result ≡ origins.in_front colour origin behind }
{
    if colour == 0 {
        return behind;
    }
    Pixel { colour, origin }
}

// Behind a backdrop of colour 0.
fn behind_backdrop(external: bool) -> Pixel
    ensures { result ≡ origins.behind_backdrop external }
{
    if external {
        return Pixel {
            colour: 0,
            origin: Origin::External,
        };
    }
    Pixel {
        colour: 1,
        origin: Origin::Black,
    }
}

// What stands behind the pattern plane.
pub fn pixel_behind(registers: [u8; 8]) -> Pixel
    ensures { result ≡ origins.pixel_behind registers }
{
    let last = behind_backdrop(bit(registers[0], 0));
    in_front(registers[7] % 16, Origin::Backdrop, last)
}
