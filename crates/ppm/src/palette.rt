// Red, green and blue of the 16 colours (docs/DECISIONS.md).
ghost use Rattle.std.specs.Prelude.{◌≡◌};
ghost use Rattle.ppm.specs.Palette.{rgb_of};

pub type Rgb = [u8; 3];

// A static: a constant would be made anew for each pixel.
static PALETTE: [Rgb; 16] = [
    [0, 0, 0],
    [0, 0, 0],
    [33, 200, 66],
    [94, 219, 120],
    [84, 86, 237],
    [125, 118, 252],
    [212, 81, 77],
    [66, 236, 245],
    [252, 85, 84],
    [255, 121, 120],
    [212, 192, 84],
    [230, 205, 128],
    [33, 175, 59],
    [201, 92, 186],
    [204, 204, 204],
    [255, 255, 255],
];

pub fn rgb_of(colour: u8) -> Rgb
    ensures { result ≡ rgb_of colour }
{
    PALETTE[usize::from(colour % 16)]
}
