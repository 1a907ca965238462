// What a text's bytes say at a place: the byte, what follows a space, a number, and by the bytes before the end the size and Q.
#![tactic(auto)]

ghost use Rattle.std.specs.Prelude.{◌≡◌, ◌≤◌, length, get_or, drop};
ghost use Rattle.machine.specs.Size.{sizes};
ghost use Rattle.parts.specs.Found.{found};
ghost use Rattle.operands.specs.Operands.{letters};
ghost use Rattle.scans.specs.Scanned.{PastSpace, worth, number_in, from_end, place_of, size_in, full_digits, q_in};

use machine::Length;

// The last digits of how many lanes of each size 16 bytes have.
const FULL_DIGITS: [u8; Length::SIZES] = *b"6842";

// The byte at a place; 0 past the end.
fn byte_at(text: &[u8], at: usize) -> u8
    ensures { result ≡ get_or text.now at 0 }
{
    text.get(at).copied().unwrap_or(0)
}

// The byte that is k places before the end; 0 where there is none.
fn byte_from_end(text: &[u8], k: usize) -> u8
    ensures { result ≡ from_end text.now k }
{
    if k <= text.len() {
        byte_at(text, text.len() - k)
    } else {
        0
    }
}

// The place after the first space from a place on; the end where there is none.
pub fn past_space(text: &[u8], from: usize) -> usize
    requires { from ≤ length text.now }
    ensures { PastSpace text.now from result }
{
    match text[from..].iter().position(|&b| b == b' ') {
        Some(k) => from + k + 1,
        None => text.len(),
    }
}

// What a byte is worth as a decimal digit.
fn worth(b: u8) -> usize
    ensures { result ≡ worth b }
{
    usize::from(b.saturating_sub(b'0'))
}

// The number of one or two digits after the letter at a place.
pub fn number_at(text: &[u8], at: usize) -> usize
    requires { at ≤ length text.now }
    ensures { result ≡ number_in (drop at text.now) }
{
    let first = byte_at(text, at + 1);
    let second = byte_at(text, at + 2);
    if second.is_ascii_digit() {
        worth(first) * 10 + worth(second)
    } else {
        worth(first)
    }
}

// The place of a letter among those of the sizes; none where it is not there.
fn size_of(letter: u8) -> Option<usize>
    ensures { result ≡ found sizes (place_of letter letters) }
{
    match letter {
        b'b' => Some(0),
        b'h' => Some(1),
        b's' => Some(2),
        b'd' => Some(3),
        _ => None,
    }
}

// The size that the letter k places before a text's end tells; none where it is no size's.
pub fn size_in(text: &[u8], k: usize) -> Option<usize>
    ensures { result ≡ found sizes (size_in text.now k) }
{
    size_of(byte_from_end(text, k))
}

// Q: whether the count of lanes in a text ends as that of 16 bytes does.
pub fn q_in(size: usize, text: &[u8]) -> usize
    ensures { result ≡ q_in size text.now }
{
    usize::from(byte_from_end(text, 2) == full_digit(size))
}

// The last digit of how many lanes of a size 16 bytes have; 0 past the last size.
fn full_digit(size: usize) -> u8
    ensures { result ≡ get_or full_digits size 0 }
{
    FULL_DIGITS.get(size).copied().unwrap_or(0)
}
