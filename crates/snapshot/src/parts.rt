// Where the state and VRAM stand in a snapshot: their distances before the trailer.
ghost use Rattle.std.specs.Prelude.{◌≡◌, ◌-◌, ◌≤◌, take, drop};
ghost use Rattle.snapshot.specs.Tests.{trailer_at, state_bytes, vram_bytes};

// The size bytes that begin so far before the trailer.
fn part(s: &[u8; 16406], back: usize, size: usize) -> &[u8]
    requires { (back ≤ 16398) × (size ≤ back) }
    ensures { result.now ≡ take size (drop (trailer_at s.now - back) s.now) }
{
    let start = s.len() - 8 - back;
    &s[start..start + size]
}

#[tactic(auto, unfolding(crate::specs::Tests::state_bytes))]
pub fn state_bytes(s: &[u8; 16406]) -> &[u8]
    ensures { result.now ≡ state_bytes s.now }
{
    part(s, 14, 14)
}

#[tactic(auto, unfolding(crate::specs::Tests::vram_bytes))]
pub fn vram_bytes(s: &[u8; 16406]) -> &[u8]
    ensures { result.now ≡ vram_bytes s.now }
{
    part(s, 16398, 16384)
}
