// Copying into a slice.
ghost use Rattle.std.specs.Prelude.{◌≡◌, ◌+◌, ◌≤◌, length};
ghost use Rattle.chip.specs.Lists.{put_at};

// Copies a slice into one of the same length. (With `copy_from_slice` the library for C would need `memmove` from outside.)
pub fn copy(to: &mut [u8], from: &[u8])
    requires { length to.old ≡ length from.now }
    ensures { to.new ≡ from.now }
{
    for i in 0..from.len() {
        to[i] = from[i];
    }
}

// Copies bytes into a slice, from a place on. Answers the place behind them. (No writer: its position would be one more thing to promise.)
pub fn put(to: &mut [u8], at: usize, bytes: &[u8]) -> usize
    requires { at + length bytes.now ≤ length to.old }
    ensures value { result ≡ at + length bytes.now }
    ensures to_after { to.new ≡ put_at at bytes.now to.old }
{
    let end = at + bytes.len();
    copy(&mut to[at..end], bytes);
    end
}
