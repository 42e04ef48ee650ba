// Output that is written piece by piece.
ghost use Rattle.std.specs.Prelude.{◌≡◌};
ghost use Rattle.text.specs.Pieces.{piece_of, writes_nothing};

// The walk after a step, how many bytes the step wrote, and whether they are the last. (Three fields, and neither an Option of the walk nor
// a slice of the output: `piece_of`, which the clauses of `step` cite, says each of them.)
#[derive(Clone, Copy)]
pub struct Piece<W> {
    pub walk: W,
    pub written: usize,
    pub last: bool,
}

impl<W: Copy> Piece<W> {
    // Nothing is written, and nothing follows.
    pub fn nothing(walk: W) -> Piece<W>
        ensures { result ≡ piece_of (writes_nothing walk) }
    {
        Piece {
            walk,
            written: 0,
            last: true,
        }
    }
}
