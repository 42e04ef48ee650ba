// The call that answers the colour of one point, and where it comes from.
ghost use Rattle.std.specs.Prelude.{◌≡◌};
ghost use Rattle.point.specs.Calls as calls;

use crate::numbers::Point;
use crate::pixel::point_pixel;
use chip::{Answer, Chip, Refusal, Screen};

// The state as given, and the point, or why the call was refused.
#[derive(Clone, Copy)]
pub struct PointAnswer {
    pub chip: Chip,
    pub result: Result<Point, Refusal>,
}

impl PointAnswer {
    // The answer with the colour as its number, and that with the origin. (Two methods: from C each is a call of its own.)
    pub fn colour_answer(self) -> Answer
        ensures { result ≡ calls.colour_answer self }
    {
        Answer {
            chip: self.chip,
            result: self.result.map(|point| point.colour),
        }
    }

    pub fn origin_answer(self) -> Answer
        ensures { result ≡ calls.origin_answer self }
    {
        Answer {
            chip: self.chip,
            result: self.result.map(|point| point.origin),
        }
    }
}

// The colour that the drawn line has at this column, and its origin; or why that is refused.
fn point_at(chip: Chip, vram: &[u8], line: u32, column: u32) -> Result<Point, Refusal>
    ensures { result ≡ calls.point_at chip vram.now line column }
{
    let Some(vram) = vram.as_array::<16384>() else {
        return Err(Refusal::VramLength);
    };
    if !chip.is_well_formed() {
        return Err(Refusal::IllFormed);
    }
    if 191 < line {
        return Err(Refusal::LineNumber);
    }
    if 255 < column {
        return Err(Refusal::ColumnNumber);
    }
    let screen = Screen::new(chip.registers, vram);
    let pixel = point_pixel(screen, line as u8, column as u8);
    Ok(Point {
        colour: pixel.colour,
        origin: pixel.origin.code(),
    })
}

// Answers that of a point. Nothing is drawn, and the state stays.
pub fn point(chip: Chip, vram: &[u8], line: u32, column: u32) -> PointAnswer
    ensures { result ≡ calls.point chip vram.now line column }
{
    let result = point_at(chip, vram, line, column);
    PointAnswer { chip, result }
}
