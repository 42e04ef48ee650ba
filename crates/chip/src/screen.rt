// What a screen is drawn from.
ghost use Rattle.std.specs.Prelude.{◌≡◌, true, length};
ghost use Rattle.chip.specs.State.{masked, Bytes};

// Registers that keep only the bits of their masks, and all of VRAM. What a crate hands to others and looks at the registers alone takes
// those, and asks for what it needs of them: a screen would ask for more. A line, a row of names, a cell, a column, a sprite and an
// address are plain numbers with their bound in `requires`: they come from ranges and go into sums and slices, and a type for each
// would be opened at every use.
#[derive(Clone, Copy)]
pub struct Screen<'a> {
    pub registers: [u8; 8],
    pub vram: &'a [u8; 16384],
    pub ghost obeys_masks: { masked registers ≡ true },
    pub ghost holds_all: { length vram.now ≡ 16384 },
    pub ghost holds_bytes: { Bytes vram.now },
}

impl<'a> Screen<'a> {
    pub fn new(registers: [u8; 8], vram: &'a [u8; 16384]) -> Screen<'a>
        requires { masked registers ≡ true }
        ensures registers { result.registers ≡ registers }
        ensures vram { result.vram.now ≡ vram.now }
    {
        // That an array behind a reference holds bytes is known once the array is used, if only for its length.
        prove!(vram.len() == 16384);
        Screen { registers, vram }
    }
}
