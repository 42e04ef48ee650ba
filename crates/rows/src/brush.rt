// What pattern planes are drawn with.
ghost use Rattle.std.specs.Prelude.{◌≡◌, ◌/◌, ◌%◌, get_or};
ghost use Rattle.rows.specs.Rows.{Paints};
ghost use Rattle.rows.specs.Stripes.{PatternWord};

use crate::paint::paints;
use chip::Screen;
use words::{MaskTable, blend};

// A pattern byte as a word, in two colours. (No methods: through a brush, in a loop that stores, the compiler would look up for each word
// where the masks are.)
pub fn pattern_word(masks: &MaskTable, pattern: u8, one: u64, zero: u64) -> u64
    ensures { PatternWord pattern one zero result }
{
    blend(masks.of(pattern), one, zero)
}

// The same in the two colours of a byte.
pub fn coloured_word(masks: &MaskTable, paints: &[u64; 16], pattern: u8, colours: u8) -> u64
    ensures { PatternWord pattern (get_or paints.now (colours / 16) 0) (get_or paints.now (colours % 16) 0) result }
{
    let both = colours as usize;
    pattern_word(masks, pattern, paints[both / 16], paints[both % 16])
}

// A screen, and the words that its cells are painted with: what each pattern byte masks, and the sixteen colours. The table of masks is
// lent: in here it would be copied with each brush.
#[derive(Clone, Copy)]
pub struct Brush<'a> {
    pub screen: Screen<'a>,
    pub masks: &'a MaskTable,
    pub paints: [u64; 16],
    pub ghost paints_are: { Paints screen.registers paints },
}

impl<'a> Brush<'a> {
    pub fn new(screen: Screen<'a>, masks: &'a MaskTable) -> Brush<'a>
        ensures registers { result.screen.registers ≡ screen.entry.registers }
        ensures vram { result.screen.vram.now ≡ screen.entry.vram.now }
    {
        Brush {
            screen,
            masks,
            paints: paints(screen.registers),
        }
    }
}
