// The pixel at a line and a column: of the line's cells that of the column alone is read, and of its sprites what the scan reads.
ghost use Rattle.std.specs.Prelude.{◌≡◌, ◌<◌};
ghost use Rattle.point.specs.Calls.{point_pixel};

use chip::Screen;
use planes::Pixel;
use scanline::has_sprites;

pub fn point_pixel(screen: Screen, l: u8, x: u8) -> Pixel
    requires { l < 192 }
    ensures { result ≡ point_pixel screen.entry.registers screen.entry.vram.now l x }
{
    let mode = chip::mode_of(screen.registers);
    let plane = planes::plane_at(mode, screen, l as usize, x as usize);
    if has_sprites(mode) {
        return sprites::sprites_over(screen, l, x, plane);
    }
    plane
}
