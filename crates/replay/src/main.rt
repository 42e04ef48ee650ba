// Runs the log that stands behind a snapshot on standard input, and writes the snapshot after the run.
#![tactic(auto)]

mod report;
mod streams;

use streams::replay;

fn main(rt: HostRuntime) {
    let mut file = input::long_buffer();
    let count = input::read_with_log(&mut rt.stdin(), &mut file);
    let mut output = [0u8; 16406];
    let mut errors = [0u8; 64];
    let written = replay(&file[..count], &mut output, &mut errors);
    let _ = rt.write_all(&output[..written.output]);
    let _ = rt.stderr().write_all(&errors[..written.errors]);
}
