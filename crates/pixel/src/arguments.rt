// The words that the program is called with.
ghost use Rattle.std.specs.Prelude.{◌≡◌, true, min};
ghost use Rattle.pixel.specs.Arguments as arguments;

// Whether a word is one digit or more, and nothing else.
fn is_number(word: &[u8]) -> bool
    ensures { result ≡ arguments.is_number word.now }
{
    !word.is_empty() && word.iter().all(|c| c.is_ascii_digit())
}

// Whether the words are the program's name, a line and a column.
pub fn rightly_called(argc: usize, first: &[u8], second: &[u8]) -> bool
    ensures { result ≡ arguments.rightly_called argc first.now second.now }
{
    (argc == 3) & (is_number(first) & is_number(second))
}

// The number that a word's digits stand for, or the largest of the type where it is too large, which is refused like it.
#[tactic(auto, using(crate::proofs::Laws::Arguments::parsing))]
pub fn number_in(word: &[u8]) -> u32
    requires { arguments.is_number word.now ≡ true }
    ensures { result ≡ min (arguments.number_in word.now) 4294967295 }
{
    let Ok(digits) = str::from_utf8(word) else {
        return u32::MAX;
    };
    digits.parse::<u32>().unwrap_or(u32::MAX)
}
