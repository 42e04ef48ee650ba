// Writes the snapshot on standard input as a binary PPM, piece by piece.
#![tactic(auto)]

fn main(rt: HostRuntime) {
    let mut file = input::buffer();
    let count = input::read(&mut rt.stdin(), &mut file);
    let mut vram = [0u8; 16384];
    let mut walk = ppm::start(&file[..count], &mut vram);
    let mut out = [0u8; 768];
    // `show` has the same loop: a trait over the two walks, with the laws that it ends by, is longer than the loop.
    loop {
        let piece = ppm::step(walk, &vram, &mut out);
        let written = piece.written;
        let _ = rt.write_all(&out[..written]);
        if piece.last {
            return;
        }
        walk = piece.walk;
    }
}
