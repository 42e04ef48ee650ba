// The eight pixels of every byte, in the modes in which one byte decides a cell's.
ghost use Rattle.std.specs.Prelude.{◌+◌, ◌*◌, ◌<◌};
ghost use Rattle.chip.specs.declared.mode.Mode.TheVariants.{Multicolor, Text};
ghost use Rattle.rows.specs.Rows.{ByteWords, Paints};
ghost use Rattle.rows.specs.Shown.{Filled, block_byte};

use chip::Mode;
use words::{MaskTable, blend};

// Every pattern byte in the two colours of register 7.
fn text_words(r: [u8; 8], masks: &MaskTable, paints: &[u64; 16]) -> [u64; 256]
    requires { Paints r paints.now }
    ensures { ByteWords Text r result }
{
    let both = r[7] as usize;
    let one = paints[both / 16];
    let zero = paints[both % 16];
    let mut words = [0u64; 256];
    for b in 0..256 {
        words[b] = blend(masks.of(b as u8), one, zero);
    }
    words
}

// The bytes with one high nibble: four columns of its colour, and four of the low nibble's.
fn add_blocks(words: &mut [u64; 256], high: usize, masks: &MaskTable, paints: &[u64; 16])
    requires { (high < 16) × Filled words.old (block_byte paints.now) (16 * high) }
    ensures { Filled words.new (block_byte paints.now) (16 * high + 16) }
{
    let mask = masks.of(0xF0);
    let left = paints[high];
    let first = 16 * high;
    for low in 0..16 {
        words[first + low] = blend(mask, left, paints[low]);
    }
}

fn multicolor_words(r: [u8; 8], masks: &MaskTable, paints: &[u64; 16]) -> [u64; 256]
    requires { Paints r paints.now }
    ensures { ByteWords Multicolor r result }
{
    let mut words = [0u64; 256];
    for high in 0..16 {
        add_blocks(&mut words, high, masks, paints);
    }
    words
}

// Worth making where many rows are drawn. In other modes the words are not looked at. No brush is taken, since it would ask for VRAM,
// of which nothing is read here, and no struct of registers and paints, since a brush has the registers in its screen; so what the paints
// are is said in three places.
pub fn byte_words(mode: Mode, r: [u8; 8], masks: &MaskTable, paints: &[u64; 16]) -> [u64; 256]
    requires { Paints r paints.now }
    ensures { ByteWords mode r result }
{
    match mode {
        Mode::Blank | Mode::GraphicsI | Mode::GraphicsII => [0u64; 256],
        Mode::Multicolor => multicolor_words(r, masks, paints),
        Mode::Text => text_words(r, masks, paints),
    }
}
