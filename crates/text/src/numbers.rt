// Numbers put into a slice from a place on, as characters. Each answers the place behind them. The digits are made here: nothing
// says that `write!` into a lent slice succeeds. A `std::io::Cursor` over the slice could be written to without a heap, but each
// promise would speak of its position and of what is behind it as well: no plainer.
ghost use Rattle.std.specs.Prelude.{◌≡◌, ◌+◌, ◌≤◌, ◌<◌, length};
ghost use Rattle.chip.specs.Lists.{put_at};
ghost use Rattle.text.specs.Numbers.{decimal, three_digits, long_decimal, hex_digit, two_hex};

use chip::put;

// The decimal digits of a number below 1,000.
#[tactic(auto, unfolding(crate::specs::Numbers::decimal))]
pub fn put_decimal(out: &mut [u8], at: usize, n: usize) -> usize
    requires { (n < 1000) × (at + 3 ≤ length out.old) }
    ensures value { result ≡ at + length (decimal n) }
    ensures out_after { out.new ≡ put_at at (decimal n) out.old }
{
    if n < 10 {
        return put(out, at, &[b'0' + n as u8]);
    }
    if n < 100 {
        return put(out, at, &[b'0' + (n / 10) as u8, b'0' + (n % 10) as u8]);
    }
    put_three_digits(out, at, n)
}

// The three digits of a number below 1,000.
fn put_three_digits(out: &mut [u8], at: usize, n: usize) -> usize
    requires { (n < 1000) × (at + 3 ≤ length out.old) }
    ensures value { result ≡ at + 3 }
    ensures out_after { out.new ≡ put_at at (three_digits n) out.old }
{
    let three = [
        b'0' + (n / 100) as u8,
        b'0' + (n / 10 % 10) as u8,
        b'0' + (n % 10) as u8,
    ];
    put(out, at, &three)
}

// The decimal digits of a number below 1,000,000.
#[tactic(auto, using(crate::proofs::Laws::Numbers::lengths), unfolding(crate::specs::Numbers::long_decimal))]
pub fn put_long_decimal(out: &mut [u8], at: usize, n: usize) -> usize
    requires { (n < 1000000) × (at + 6 ≤ length out.old) }
    ensures value { result ≡ at + length (long_decimal n) }
    ensures out_after { out.new ≡ put_at at (long_decimal n) out.old }
{
    if n < 1000 {
        return put_decimal(out, at, n);
    }
    let thousands = put_decimal(out, at, n / 1000);
    put_three_digits(out, thousands, n % 1000)
}

fn hex_digit(d: u8) -> u8
    requires { d < 16 }
    ensures { result ≡ hex_digit d }
{
    if d < 10 { b'0' + d } else { b'A' + (d - 10) }
}

// The two hex digits of a byte, in upper case.
pub fn put_hex(out: &mut [u8], at: usize, b: u8) -> usize
    requires { at + 2 ≤ length out.old }
    ensures value { result ≡ at + 2 }
    ensures out_after { out.new ≡ put_at at (two_hex b) out.old }
{
    put(out, at, &[hex_digit(b / 16), hex_digit(b % 16)])
}
