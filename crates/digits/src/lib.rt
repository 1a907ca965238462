// Bytes and digits written from a place on; each function answers the place after what it wrote.
#![tactic(auto)]

ghost use Rattle.std.specs.Prelude.{◌≡◌, [], ◌∷◌, ◌+◌, ◌≤◌, ◌<◌, length};
ghost use Rattle.digits.specs.Digits.{digit_of, digits_in, decimal_width, decimal};
ghost use Rattle.digits.specs.Put.{Put};

// The digit of each value.
const DIGITS: [u8; 16] = *b"0123456789abcdef";

// The base of decimal numbers.
const TEN: usize = 10;

// Writes a byte.
pub fn put(out: &mut [u8], at: usize, b: u8) -> usize
    requires { at < length out.old }
    ensures { Put out.old at (b ∷ []) out.new result }
{
    out[at] = b;
    at + 1
}

// Writes bytes.
pub fn put_bytes(out: &mut [u8], at: usize, piece: &[u8]) -> usize
    requires { at + length piece.now ≤ length out.old }
    ensures { Put out.old at piece.now out.new result }
{
    parts::overwrite(out, at, piece);
    at + piece.len()
}

// The digit of a value below sixteen.
#[tactic(auto, unfolding(crate::specs::Digits::digit_of))]
fn digit(d: usize) -> u8
    requires { d < 16 }
    ensures { result ≡ digit_of d }
{
    DIGITS[d]
}

// Writes a number's last digits in a base, the highest first.
pub fn put_digits(out: &mut [u8], at: usize, base: usize, count: usize, n: usize) -> usize
    requires { (0 < base) × (base ≤ 16) × (at + count ≤ length out.old) }
    ensures { Put out.old at (digits_in base count n) out.new result }
{
    let mut rest = n;
    for i in (0..count).rev() {
        out[at + i] = digit(rest % base);
        rest /= base;
    }
    at + count
}

// How many decimal digits a number has.
fn decimal_width(n: usize) -> usize
    ensures { result ≡ decimal_width n }
{
    let mut rest = n;
    let mut count = 1;
    while TEN <= rest {
        rest /= TEN;
        count += 1;
    }
    count
}

// Writes a number in decimal, without leading zeros.
#[tactic(auto, using(crate::proofs::Decimals::digits_length))]
pub fn put_decimal(out: &mut [u8], at: usize, n: usize) -> usize
    requires { at + length (decimal n) ≤ length out.old }
    ensures { Put out.old at (decimal n) out.new result }
{
    put_digits(out, at, TEN, decimal_width(n), n)
}
