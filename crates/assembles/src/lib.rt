// Text to word: the fields are read leniently, the word with these fields is named on the core, and its text must be the bytes that were given.
#![tactic(auto)]

ghost use Rattle.std.specs.Prelude.{◌≡◌, ◌+◌, ◌*◌, ◌-◌, ◌%◌, ◌≤◌, ◌^◌, length, drop};
ghost use Rattle.machine.specs.Refusal.{answer_of};
ghost use Rattle.machine.specs.Size.{sizes};
ghost use Rattle.words.specs.Field.{register_digits, q_place};
ghost use Rattle.names.specs.Text.{row_named};
ghost use Rattle.patterns.specs.Text.{pattern_named};
ghost use Rattle.scans.specs.Scanned.{size_in};
ghost use Rattle.assembles.specs.Reading.{fields, by_family, with_pattern, fields_from, word_of};
ghost use Rattle.assembles.specs.Assembled.{Assembled};

use facts::Facts;
use machine::{Length, Refusal};
use patterns::PATTERNS;
use rows::{Family, LowFamily, ROWS, WideFamily};
use words::{Fields, NAMING_DIGITS, PREDICATE_DIGITS, REGISTER_DIGITS, SIZE_DIGITS, place};

// Fields in the order of the operands, of a word without a pattern.
fn fields(row: usize, size: usize, d: usize, g: usize, n: usize, m: usize, q: usize) -> Fields
    ensures { result ≡ fields row size d g n m q }
{
    Fields {
        row,
        size,
        n,
        d,
        g,
        m,
        q,
        pattern: 0,
    }
}

// The fields by the family, of the size of the last letter, the numbers of three operands and Q.
fn by_family(
    row: usize,
    family: Family,
    size: usize,
    a: usize,
    b: usize,
    c: usize,
    q: usize,
) -> Fields
    requires { size ≤ sizes }
    ensures { result ≡ by_family row family size a b c q }
{
    match family {
        Family::Low(LowFamily::Long) => fields(row, size, a, 0, b, 0, q),
        Family::Low(_) => fields(row, size, a, b, c, 0, 0),
        Family::Wide(WideFamily::Pairwise) => fields(row, size + 1, a, b, c, 0, 0),
        Family::Wide(WideFamily::Widening) => fields(row, size + 1, a, 0, b, c, 0),
        Family::Made(_) => fields(row, 0, a, 0, 0, 0, 0),
    }
}

// The size that the letter k places before a text's end tells, or the number of sizes, which is none's.
fn size_in(text: &[u8], k: usize) -> usize
    ensures { result ≡ size_in text.now k }
{
    scans::size_in(text, k).unwrap_or(Length::SIZES)
}

// The pattern whose text some bytes are, or the number of patterns, which is none's.
fn pattern_in(text: &[u8]) -> usize
    ensures { result ≡ pattern_named text.now }
{
    patterns::pattern_named(text).unwrap_or(PATTERNS)
}

// The fields with the pattern that stands at a place in the text and the size of the letter before its comma, where the pattern has digits.
fn with_pattern(f: Fields, digits: u32, text: &[u8], at: usize) -> Fields
    requires { at ≤ length text.now }
    ensures { result ≡ with_pattern f digits (size_in text.now (length text.now - at + 3)) (pattern_named (drop at text.now)) }
{
    if digits == 0 {
        return f;
    }
    Fields {
        size: size_in(text, text.len() - at + 3),
        pattern: pattern_in(&text[at..]),
        ..f
    }
}

// The row that a text names, or the number of rows, which is none's.
fn row_in(text: &[u8]) -> usize
    ensures { result ≡ row_named text.now }
{
    names::row_named(text).unwrap_or(ROWS)
}

// The fields that a text has, if it is the text of an accepted word.
fn read_fields(text: &[u8]) -> Fields
    ensures { result ≡ fields_from text.now }
{
    let row = row_in(text);
    let family = rows::family_of(row);
    let first = scans::past_space(text, 0);
    let second = scans::past_space(text, first);
    let third = scans::past_space(text, second);
    let a = scans::number_at(text, first);
    let b = scans::number_at(text, second);
    let c = scans::number_at(text, third);
    let size = size_in(text, 1);
    let q = scans::q_in(size, text);
    let f = by_family(row, family, size, a, b, c, q);
    with_pattern(f, words::pattern_digits(family), text, second)
}

// A number's last digits at their place in a word.
fn placed(number: usize, digits: u32, low: u32) -> u64
    requires { (digits ≤ register_digits) × (low ≤ q_place) }
    ensures { result ≡ number % 2 ^ digits * 2 ^ low }
{
    ((number % (1 << digits)) as u64) << low
}

// The word that fields make: the row's value plus each field at its place.
fn encode(f: Fields) -> u32
    ensures { result ≡ word_of f }
{
    let entry = rows::row_at(f.row);
    let value = u64::from(entry.2);
    let n = placed(f.n, REGISTER_DIGITS, place::SOURCE);
    let m = placed(f.m, REGISTER_DIGITS, place::SECOND);
    let size = placed(f.size, SIZE_DIGITS, place::SIZE);
    let g = placed(f.g, PREDICATE_DIGITS, place::GOVERNING);
    let q = placed(f.q, 1, place::Q);
    let d = placed(f.d, REGISTER_DIGITS, place::DESTINATION);
    let pattern = placed(f.pattern, NAMING_DIGITS, place::PATTERN);
    let sum = value + n + m + size + g + q + d + pattern;
    (sum % 0x100000000) as u32
}

// The word that the core accepts and that reads as this text, or TEXT. The word that is read is named, and its text must be this one.
pub fn assemble(text: &[u8], facts: Facts) -> Result<u32, Refusal>
    ensures { Assembled text.now facts (answer_of result) }
{
    let word = encode(read_fields(text));
    let mut line = [0u8; names::LEAST_OUT];
    match names::text(word, facts, &mut line) {
        Ok(count) if parts::same_bytes(&line[..count], text) => Ok(word),
        _ => Err(Refusal::Text),
    }
}
