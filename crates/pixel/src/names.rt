// The names of the colours.
ghost use Rattle.std.specs.Prelude.{◌≡◌, ◌+◌, ◌≤◌, length};
ghost use Rattle.chip.specs.Lists.{put_at};
ghost use Rattle.pixel.specs.Names.{name_of};

use chip::put;

const NAMES: [&[u8]; 16] = [
    b"transparent",
    b"black",
    b"medium green",
    b"light green",
    b"dark blue",
    b"light blue",
    b"dark red",
    b"cyan",
    b"medium red",
    b"light red",
    b"dark yellow",
    b"light yellow",
    b"dark green",
    b"magenta",
    b"gray",
    b"white",
];

// Puts a colour's name into a slice from a place on. Answers the place behind it. (A slice and a place: see origins.rt.)
#[tactic(auto, unfolding(crate::specs::Names::name_of))]
pub fn put_name(out: &mut [u8], at: usize, colour: u8) -> usize
    requires { at + 12 ≤ length out.old }
    ensures value { result ≡ at + length (name_of colour) }
    ensures out_after { out.new ≡ put_at at (name_of colour) out.old }
{
    put(out, at, NAMES[usize::from(colour % 16)])
}
