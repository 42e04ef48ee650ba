// Whether a part of the map has a dirty bit.
ghost use Rattle.std.specs.Prelude.{◌≡◌, ◌+◌, ◌≤◌, length};
ghost use Rattle.dirty.specs.Plane.{part_dirty};

use crate::clear::is_clear;

// Of the n bytes that begin at byte from.
pub fn part_dirty(map: &[u8], from: usize, n: usize) -> bool
    requires { from + n ≤ length map.now }
    ensures { result ≡ part_dirty map.now from n }
{
    !is_clear(&map[from..from + n])
}
