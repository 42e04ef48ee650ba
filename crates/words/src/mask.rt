// What each pattern byte masks.
ghost use Rattle.std.specs.Prelude.{◌+◌, ◌<◌};
ghost use Rattle.words.specs.Words.{IsMask, Masks, MasksOf};

// The masks of the patterns whose highest bit is b: those of the patterns before them, each with the byte of pixel k set too. All
// of this is constant, so that the compiler makes plain stores of it.
fn add_bit(masks: &mut [u64; 256], b: usize)
    requires { (b < 8) × MasksOf b masks.old }
    ensures { MasksOf (b + 1) masks.new }
{
    let n = 1usize << b;
    let k = 7 - b;
    let byte = 255u64 << (8 * k);
    for j in 0..n {
        masks[n + j] = masks[j] | byte;
    }
}

// The masks of all patterns: worth making where many lines are drawn.
#[derive(Clone, Copy)]
pub struct MaskTable {
    pub words: [u64; 256],
    pub ghost masks: { Masks words },
}

impl MaskTable {
    pub fn new() -> MaskTable {
        let mut words = [0u64; 256];
        for b in 0..8 {
            add_bit(&mut words, b);
        }
        MaskTable { words }
    }

    // That of a pattern byte.
    pub fn of(&self, pattern: u8) -> u64
        ensures { IsMask pattern result }
    {
        self.words[pattern as usize]
    }
}
