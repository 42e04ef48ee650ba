// What the rows of a frame are redrawn with.
ghost use Rattle.std.specs.Prelude.{◌≡◌};
ghost use Rattle.chip.specs.Modes.{mode_of};
ghost use Rattle.rows.specs.Rows.{ByteWords};
ghost use Rattle.redraw.specs.Row.{LineSets};

use chip::Mode;
use rows::Brush;

// Made once for all rows: the brush in the screen's mode, the words of every byte, and the sets of every line's sprites. The tables are
// lent, so that none is copied.
#[derive(Clone, Copy)]
pub struct Drawing<'a> {
    pub mode: Mode,
    pub brush: Brush<'a>,
    pub words: &'a [u64; 256],
    pub sets: &'a [u32; 192],
    pub ghost mode_is: { mode ≡ mode_of brush.screen.registers },
    pub ghost words_are: { ByteWords mode brush.screen.registers words.now },
    pub ghost sets_are: { LineSets brush.screen.registers brush.screen.vram.now sets.now },
}
