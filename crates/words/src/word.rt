// Words of eight bytes, in a slice and by themselves.
ghost use Rattle.std.specs.Prelude.{◌≡◌, ℕ, ◌+◌, ◌≤◌, ◌<◌, length, get_or};
ghost use Rattle.planes.specs.Painted.{Painted};
ghost use Rattle.words.specs.Words.{byte_of, Repeated, Blended};

// A byte eight times.
pub fn repeated(byte: u8) -> u64
    ensures { Repeated byte result }
{
    byte as u64 * 0x0101010101010101
}

// Of one word where the mask is set, and of the other where it is not.
pub fn blend(mask: u64, one: u64, zero: u64) -> u64
    ensures { Blended mask one zero result }
{
    zero ^ ((zero ^ one) & mask)
}

// Stores a word, which the compiler makes one store.
pub fn put_word(line: &mut [u8], at: usize, word: u64)
    requires { at + 8 ≤ length line.old }
    ensures { Painted line.new line.old at 8 (λ k. byte_of k word) }
{
    let bytes = word.to_le_bytes();
    line[at..at + 8].copy_from_slice(&bytes);
}

// The eight bytes from a place on, which the compiler makes one load.
pub fn word_at(line: &[u8], at: usize) -> u64
    requires { at + 8 ≤ length line.now }
    ensures { (k : ℕ) → k < 8 → byte_of k result ≡ get_or line.now (at + k) 0 }
{
    let bytes: [u8; 8] = line[at..at + 8].try_into().unwrap();
    u64::from_le_bytes(bytes)
}
