// The two numbers that a point answers: its colour, and the code of its origin.
// (A number: by the theorem `as-drawn`, crates/point/proofs/AsDrawn.antt, it is the byte that the line's draw puts there.)
#[derive(Clone, Copy, PartialEq, Eq, Debug)]
pub struct Point {
    pub colour: u8,
    pub origin: u8,
}
