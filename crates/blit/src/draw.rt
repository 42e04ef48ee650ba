// Drawing the sprites that a scan found.
ghost use Rattle.std.specs.Prelude.{◌≡◌, get_or, take};
ghost use Rattle.chip.specs.Lists.{tabulate};
ghost use Rattle.planes.specs.Pixel as pixel;
ghost use Rattle.sprites.specs.Pixels.{visible, sprite_colours, coincidence};
ghost use Rattle.blit.specs.Wide.{WideRows};

use crate::meet::any_meet;
use crate::paint::paint_found;
use crate::wide::wide_of;
use crate::wide_sprite::WideSprite;
use sprites::Scan;
use words::MaskTable;

// The scan's sprites, each with its wide row.
fn wide_rows(scan: Scan) -> [WideSprite; 4]
    ensures { WideRows scan result }
{
    let r = scan.registers;
    let sprites = scan.sprites;
    let mut wides = [wide_of(r, sprites[0]); 4];
    for k in 1..4 {
        wides[k] = wide_of(r, sprites[k]);
    }
    wides
}

// Paints the found sprites over a line, the highest number first, so that a lower one comes to lie in front. Answers
// whether two of them coincide.
pub fn draw_found(line: &mut [u8; 256], masks: &MaskTable, scan: Scan) -> bool
    ensures line_after { line.new ≡ tabulate 256 (λ x. pixel.first_non_zero (sprite_colours scan.registers (take scan.drawn scan.sprites) (visible x)) (get_or line.old x 0)) }
    ensures value { result ≡ coincidence scan.registers (take scan.drawn scan.sprites) }
{
    let wides = wide_rows(scan);
    let met = any_meet(&wides[..scan.drawn]);
    for k in (0..scan.drawn).rev() {
        let w = wides[k];
        paint_found(line, masks, scan.registers, w.sprite, w.row);
    }
    met
}
