// Shows the colour of one point of the snapshot on standard input, and where it comes from.
// Lines, columns and sprites are plain numbers with their bounds in `requires` (see `chip::Screen`).
#![tactic(auto)]

mod arguments;
mod names;
mod origins;
mod output;

use arguments::rightly_called;
use output::pixel;
use std::env::{Env, FillError};

// How many words the program is called with, its own name among them.
fn arg_count(rt: HostRuntime) -> usize {
    for i in 0..usize::MAX {
        if let Err(FillError::NotPresent) = rt.arg(i, &mut []) {
            return i;
        }
    }
    usize::MAX
}

// Where the arguments are wrong nothing is read, so that the usage shows at once. (How long one can be: docs/DECISIONS.md.)
fn main(rt: HostRuntime) {
    let argc = arg_count(rt);
    let mut first = [0u8; 131072];
    let first_count = rt.arg(1, &mut first).unwrap_or(0);
    let mut second = [0u8; 131072];
    let second_count = rt.arg(2, &mut second).unwrap_or(0);
    let mut file = input::buffer();
    let mut count = 0;
    if rightly_called(argc, &first[..first_count], &second[..second_count]) {
        count = input::read(&mut rt.stdin(), &mut file);
    }
    let mut out = [0u8; 128];
    let written = pixel(
        argc,
        &first[..first_count],
        &second[..second_count],
        &file[..count],
        &mut out,
    );
    let _ = rt.write_all(&out[..written]);
}
