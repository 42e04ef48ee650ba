// Drawing the sprites that a scan found.
ghost use Rattle.std.specs.Prelude.{◌≡◌, take, slice_index};
ghost use Rattle.chip.specs.Lists.{tabulate};
ghost use Rattle.planes.specs.Pixel as pixel;
ghost use Rattle.sprites.specs.Pixels.{visible, sprite_colours, numbered_colours, coincidence};
ghost use Rattle.sprites.specs.Codes.{first_number};

use crate::meet::meets_one;
use crate::paint::paint_sprite;
use crate::scan::Scan;

// Paints the found sprites over a line, the highest number first, so that a lower one comes to lie in front. Answers
// whether two of them coincide.
pub fn draw_sprites(line: &mut [u8; 256], scan: Scan) -> bool
    ensures line_after { line.new ≡ tabulate 256 (λ x. pixel.first_non_zero (sprite_colours scan.registers (take scan.drawn scan.sprites) (visible x)) (slice_index line.old x)) }
    ensures value { result ≡ coincidence scan.registers (take scan.drawn scan.sprites) }
{
    let r = scan.registers;
    let mut met = false;
    for k in (0..scan.drawn).rev() {
        let s = scan.sprites[k];
        met |= meets_one(s, scan, k + 1);
        paint_sprite(line, r, s, s.colour);
    }
    met
}

// Paints their numbers over the origins of a line. Not one function with `draw_sprites`: the two loops share one call, and a closure
// for the value would need a contract that says both what colours and what numbers do.
pub fn draw_numbers(origins: &mut [u8; 256], scan: Scan)
    ensures { origins.new ≡ tabulate 256 (λ x. first_number (numbered_colours scan.registers (take scan.drawn scan.sprites) (visible x)) (slice_index origins.old x)) }
{
    for s in scan.sprites[..scan.drawn].iter().rev() {
        paint_sprite(origins, scan.registers, *s, s.number);
    }
}
