// Running a step on VRAM of its own.
use std::io::Stdout;

// VRAM is all zeros when the step starts, and is dropped after it.
pub fn on_fresh<F: FnOnce(Stdout, &mut [u8])>(out: Stdout, step: F)
    requires { F.IsAlwaysCallable step }
{
    let mut vram = [0u8; 16384];
    step(out, &mut vram);
}
