// The chip's state, its masks, and when a state is well-formed.
ghost use Rattle.std.specs.Prelude.{◌≡◌, ◌<◌};
ghost use Rattle.chip.specs.State.{kept, masked, well_formed, power_up_state, with_waiting};

#[derive(Clone, Copy)]
pub struct Chip {
    pub registers: [u8; 8],
    pub address: u16,
    pub buffer: u8,
    // The first byte of a pair of control writes, while the second has not come.
    pub waiting: Option<u8>,
    pub status: u8,
    pub redraw: bool,
    pub lost: u16,
}

// The bits that each register keeps.
const MASKS: [u8; 8] = [0x03, 0xFB, 0x0F, 0xFF, 0x07, 0x7F, 0x07, 0xFF];

// What register n keeps of x.
pub fn keep(n: usize, x: u8) -> u8
    requires { n < 8 }
    ensures { result ≡ kept n x }
{
    x & MASKS[n]
}

fn obeys_masks(registers: [u8; 8]) -> bool
    ensures { result ≡ masked registers }
{
    for (n, x) in registers.iter().enumerate() {
        if keep(n, *x) != *x {
            return false;
        }
    }
    true
}

impl Chip {
    pub fn power_up_state() -> Chip
        ensures { result ≡ power_up_state }
    {
        Chip {
            registers: [0; 8],
            address: 0,
            buffer: 0,
            waiting: None,
            status: 0,
            redraw: true,
            lost: 0,
        }
    }

    #[tactic(auto, unfolding(crate::specs::State::well_formed))]
    pub fn is_well_formed(self) -> bool
        ensures { result ≡ well_formed self }
    {
        obeys_masks(self.registers) & (self.address <= 16383)
    }

    pub fn with_waiting(mut self, waiting: Option<u8>) -> Chip
        ensures { result ≡ with_waiting waiting self }
    {
        self.waiting = waiting;
        self
    }
}
