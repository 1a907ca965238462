// The patterns of ptrue: how many lanes each names, and its text.
#![tactic(auto)]

ghost use Rattle.std.specs.Prelude.{◌≡◌, ◌++◌, ◌+◌, ◌≤◌, ◌<◌, length};
ghost use Rattle.parts.specs.Found.{found};
ghost use Rattle.parts.specs.Part.{same_bytes};
ghost use Rattle.digits.specs.Digits.{decimal};
ghost use Rattle.digits.specs.Put.{Put};
ghost use Rattle.patterns.specs.Lanes.{power_within, multiple_within, fixed_within, doubling, pattern_lanes};
ghost use Rattle.patterns.specs.Text.{patterns, pattern_text, pattern_named};

use digits::{put_bytes, put_decimal};

// How many patterns there are.
pub const PATTERNS: usize = 32;

// The bytes of the longest text of a pattern.
const MOST_TEXT: usize = 5;

// The largest power of two not above a count; 1 for the count 0.
fn power_within(count: usize) -> usize
    ensures { result ≡ power_within count }
{
    let mut power = 1;
    while power <= count / 2 {
        power = 2 * power;
    }
    power
}

// The largest multiple of a number not above a count.
fn multiple_within(n: usize, count: usize) -> usize
    requires { 0 < n }
    ensures { result ≡ multiple_within n count }
{
    count - count % n
}

// A fixed number of lanes: none where it is above the count.
fn fixed_within(n: usize, count: usize) -> usize
    ensures { result ≡ fixed_within n count }
{
    if n <= count { n } else { 0 }
}

// The number that a pattern from 9 to 13 fixes: 16, 32, 64, 128 or 256.
fn doubling_of(pattern: usize) -> usize
    requires { (9 ≤ pattern) × (pattern ≤ 13) }
    ensures { result ≡ doubling pattern }
{
    16 << (pattern - 9)
}

// How many of a vector's lanes a pattern names.
pub fn pattern_lanes(pattern: usize, count: usize) -> usize
    ensures { result ≡ pattern_lanes pattern count }
{
    match pattern {
        0 => power_within(count),
        1..=8 => fixed_within(pattern, count),
        9..=13 => fixed_within(doubling_of(pattern), count),
        29 => multiple_within(4, count),
        30 => multiple_within(3, count),
        31 => count,
        _ => 0,
    }
}

// Writes some bytes and a number in decimal after them.
fn put_numbered(out: &mut [u8], at: usize, name: &[u8], number: usize) -> usize
    requires { at + length (name.now ++ decimal number) ≤ length out.old }
    ensures { Put out.old at (name.now ++ decimal number) out.new result }
{
    let next = put_bytes(out, at, name);
    put_decimal(out, next, number)
}

// Writes a pattern's text.
pub fn put_pattern(out: &mut [u8], at: usize, pattern: usize) -> usize
    requires { at + length (pattern_text pattern) ≤ length out.old }
    ensures { Put out.old at (pattern_text pattern) out.new result }
{
    match pattern {
        0 => put_bytes(out, at, b"pow2"),
        1..=8 => put_numbered(out, at, b"vl", pattern),
        9..=13 => put_numbered(out, at, b"vl", doubling_of(pattern)),
        29 => put_numbered(out, at, b"mul", 4),
        30 => put_numbered(out, at, b"mul", 3),
        31 => put_bytes(out, at, b"all"),
        _ => put_numbered(out, at, b"#", pattern),
    }
}

// Whether some bytes are a pattern's text.
fn is_text_of(text: &[u8], pattern: usize) -> bool
    requires { pattern < patterns }
    ensures { result ≡ same_bytes (pattern_text pattern) text.now }
{
    let mut name = [0u8; MOST_TEXT];
    let count = put_pattern(&mut name, 0, pattern);
    parts::same_bytes(&name[..count], text)
}

// The pattern whose text some bytes are; none where they are of none.
pub fn pattern_named(text: &[u8]) -> Option<usize>
    ensures { result ≡ found patterns (pattern_named text.now) }
{
    (0..PATTERNS).find(|&pattern| is_text_of(text, pattern))
}
