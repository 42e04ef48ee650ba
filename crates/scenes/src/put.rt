// Filling VRAM.
ghost use Rattle.std.specs.Prelude.{◌%◌, ◌≡◌, ◌<◌, ℕ, set};
ghost use Rattle.chip.specs.Lists.{tabulate};
ghost use Rattle.scenes.specs.Put.{put_from, mixed};

// A byte past the end is left out.
fn store(vram: &mut [u8], at: usize, byte: u8)
    ensures { vram.new ≡ set vram.old at byte }
{
    if at < vram.len() {
        vram[at] = byte;
    }
}

// Bytes from an address on.
pub fn put(vram: &mut [u8], at: u16, bytes: &[u8])
    ensures { vram.new ≡ put_from vram.old at bytes.now }
{
    for (i, byte) in bytes.iter().enumerate() {
        store(vram, at as usize + i, *byte);
    }
}

// The bytes that a function tells, count of them from an address on.
fn put_by<F: Fn(u16) -> u8>(vram: &mut [u8], at: u16, count: u16, told: F)
    requires { (i : ℕ) → i < count → F.pre told i }
    ensures { (f : ℕ → ℕ) → ((i x : ℕ) → F.post told i x → x ≡ f i) → vram.new ≡ put_from vram.old at (tabulate count f) }
{
    for i in 0..count {
        store(vram, at as usize + i as usize, told(i));
    }
}

// One byte, count times from an address on.
pub fn repeat(vram: &mut [u8], at: u16, count: u16, byte: u8)
    ensures { vram.new ≡ put_from vram.old at (tabulate count (λ _. byte)) }
{
    put_by(vram, at, count, |_| byte);
}

// 0, 1, 2, .. modulo 256, count bytes from an address on.
pub fn count_up(vram: &mut [u8], at: u16, count: u16)
    ensures { vram.new ≡ put_from vram.old at (tabulate count (λ i. i % 256)) }
{
    put_by(vram, at, count, |i| (i % 256) as u8);
}

// Bytes that differ from place to place, in all of VRAM.
pub fn mix(vram: &mut [u8])
    ensures { vram.new ≡ put_from vram.old 0 (tabulate 16384 mixed) }
{
    put_by(
        vram,
        0,
        16384,
        |i| ((i % 251 * 37 + i / 256 * 11) % 256) as u8,
    );
}
