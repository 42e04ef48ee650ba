// The 14-byte state layout, and the 17-byte state block that adds the redraw mark and the count of lost first bytes.
ghost use Rattle.std.specs.Prelude.{◌≡◌, ◌≤◌, length, take};
ghost use Rattle.chip.specs.State.{waiting_of};
ghost use Rattle.chip.specs.Layout as layout;

use crate::state::Chip;
use crate::two_bytes::low_first_at;

// The bytes may be the first 14 of a longer block, as in `load`: an array of 14 would ask more.
fn registers_of(b: &[u8]) -> [u8; 8]
    requires { 14 ≤ length b.now }
    ensures { result ≡ take 8 b.now }
{
    *b.first_chunk().unwrap()
}

fn waiting_of(flag: u8, first: u8) -> Option<u8>
    ensures { result ≡ waiting_of flag first }
{
    if flag == 1 { Some(first) } else { None }
}

// Whether the waiting flag and the first byte are those of a state.
fn waiting_valid(flag: u8, first: u8) -> bool
    ensures { result ≡ layout.waiting_valid flag first }
{
    (flag == 1) | ((flag == 0) & (first == 0))
}

// The fields as the first 14 bytes have them, with the redraw mark and the count given.
fn state_in(b: &[u8], redraw: bool, lost: u16) -> Chip
    requires { 14 ≤ length b.now }
    ensures { result ≡ layout.state_in b.now redraw lost }
{
    Chip {
        registers: registers_of(b),
        address: low_first_at(b, 8),
        buffer: b[10],
        waiting: waiting_of(b[11], b[12]),
        status: b[13],
        redraw,
        lost,
    }
}

// The address of what bytes decode to: if they are no state's, one that is too large for every call.
fn address_if(valid: bool, address: u16) -> u16
    ensures { result ≡ layout.address_if valid address }
{
    if valid { address } else { 65535 }
}

// The state that the first 14 bytes hold. Only the address turns on whether they are a state's: a choice between two whole
// states would go through memory.
#[tactic(auto, unfolding(crate::specs::Layout::decoded))]
pub fn decode(b: &[u8], redraw: bool, lost: u16) -> Chip
    requires { 14 ≤ length b.now }
    ensures { result ≡ layout.decoded b.now redraw lost }
{
    let mut state = state_in(b, redraw, lost);
    state.address = address_if(waiting_valid(b[11], b[12]), state.address);
    state
}

// The state that a block holds.
#[tactic(auto, unfolding(crate::specs::Layout::chip_of))]
pub fn load(b: &[u8]) -> Chip
    requires { length b.now ≡ 17 }
    ensures { result ≡ layout.chip_of b.now }
{
    let mut state = decode(b, b[14] == 1, low_first_at(b, 15));
    state.address = address_if(b[14] <= 1, state.address);
    state
}

pub type Layout = [u8; 14];

impl Chip {
    // The 14 bytes. The registers are spelled out: so all 14 make one array, where bytes put in slice by slice would be copied over zeros.
    pub fn encode(self) -> Layout
        ensures { result ≡ layout.encoded self }
    {
        let [r0, r1, r2, r3, r4, r5, r6, r7] = self.registers;
        let [low, high] = self.address.to_le_bytes();
        let flag = self.waiting.is_some() as u8;
        let first = self.waiting.unwrap_or(0);
        [
            r0,
            r1,
            r2,
            r3,
            r4,
            r5,
            r6,
            r7,
            low,
            high,
            self.buffer,
            flag,
            first,
            self.status,
        ]
    }

    // Writes the state block.
    pub fn store(self, b: &mut [u8])
        requires { length b.old ≡ 17 }
        ensures { b.new ≡ layout.block_of self }
    {
        let [low, high] = self.lost.to_le_bytes();
        b[..14].copy_from_slice(&self.encode());
        b[14] = self.redraw as u8;
        b[15] = low;
        b[16] = high;
    }
}
