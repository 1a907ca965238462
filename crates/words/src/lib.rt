// What a word decodes to: the fields of its row, where the row allows its size.
#![tactic(auto)]

ghost use Rattle.std.specs.Prelude.{◌≡◌, ◌<◌, ◌^◌};
ghost use Rattle.rows.specs.Digits.{field, word_digits};
ghost use Rattle.rows.specs.Table.{family_of};
ghost use Rattle.words.specs.Sizes.{within, most_reduced, allows_long, allows_low, allows_made, allows};
ghost use Rattle.words.specs.Field.{size_digits, size_digits_in, source_digits, destination_digits, governing_digits, second_digits, q_digits, pattern_digits, Counted};
ghost use Rattle.words.specs.Decode.{decoded, decoding, fields_at};

use machine::Refusal;
use rows::{Family, Form, LowFamily, MadeFamily, WideFamily};

pub mod place;

// A word's row and its fields; a field that the row does not have is 0.
#[derive(Clone, Copy)]
pub struct Fields {
    pub row: usize,
    pub size: usize,
    pub n: usize,
    pub d: usize,
    pub g: usize,
    pub m: usize,
    pub q: usize,
    pub pattern: usize,
}

// How many digits a size has, a vector register's number, a predicate register's, a governing predicate's, and a pattern.
pub const SIZE_DIGITS: u32 = 2;

pub const REGISTER_DIGITS: u32 = 5;

pub const MADE_DIGITS: u32 = 4;

pub const PREDICATE_DIGITS: u32 = 3;

pub const NAMING_DIGITS: u32 = 5;

// Whether a size lies from the least to the most.
fn is_within(least: usize, most: usize, size: usize) -> bool
    ensures { result ≡ within least most size }
{
    (least..=most).contains(&size)
}

// Whether a long form allows a size: size:Q = '100' is UNDEFINED, and so is size = '11'.
fn allows_long(q: usize, size: usize) -> bool
    requires { (size < 2 ^ size_digits) × (q < 2) }
    ensures { result ≡ allows_long q size }
{
    if size * 2 + q == 0b100 {
        return false;
    }
    size != 0b11
}

// The most size of a reduction, by whether it is signed.
fn most_reduced(signed: bool) -> usize
    ensures { result ≡ most_reduced signed }
{
    if signed { 2 } else { 3 }
}

// Whether a family that writes the low bytes allows a size.
fn allows_low(low: LowFamily, signed: bool, q: usize, size: usize) -> bool
    requires { (size < 2 ^ size_digits) × (q < 2) }
    ensures { result ≡ allows_low low signed q size }
{
    match low {
        LowFamily::Reduction => is_within(0, most_reduced(signed), size),
        LowFamily::Segment => is_within(0, 3, size),
        LowFamily::Long => allows_long(q, size),
    }
}

// Whether a family that makes a predicate allows a size.
fn allows_made(made: MadeFamily, size: usize) -> bool
    ensures { result ≡ allows_made made size }
{
    match made {
        MadeFamily::Patterned => is_within(0, 3, size),
        MadeFamily::Cleared => is_within(0, 0, size),
    }
}

// Whether a form allows a size.
pub fn allows_size(form: Form, q: usize, size: usize) -> bool
    requires { (size < 2 ^ size_digits) × (q < 2) }
    ensures { result ≡ allows form q size }
{
    let family = form.family;
    match family {
        Family::Low(low) => allows_low(low, form.parameters.signed, q, size),
        Family::Wide(_) => is_within(1, 3, size),
        Family::Made(made) => allows_made(made, size),
    }
}

// How many digits the size has in a family's words.
pub fn size_digits(family: Family) -> u32
    ensures { Counted (size_digits_in family) result }
{
    match family {
        Family::Low(_) => SIZE_DIGITS,
        Family::Wide(_) => SIZE_DIGITS,
        Family::Made(made) => match made {
            MadeFamily::Patterned => SIZE_DIGITS,
            MadeFamily::Cleared => 0,
        },
    }
}

// How many digits the source has in a family's words.
pub fn source_digits(family: Family) -> u32
    ensures { Counted (source_digits family) result }
{
    match family {
        Family::Low(_) => REGISTER_DIGITS,
        Family::Wide(_) => REGISTER_DIGITS,
        Family::Made(_) => 0,
    }
}

// How many digits the destination has in a family's words.
pub fn destination_digits(family: Family) -> u32
    ensures { Counted (destination_digits family) result }
{
    match family {
        Family::Low(_) => REGISTER_DIGITS,
        Family::Wide(_) => REGISTER_DIGITS,
        Family::Made(_) => MADE_DIGITS,
    }
}

// How many digits the governing predicate has in a family's words.
pub fn governing_digits(family: Family) -> u32
    ensures { Counted (governing_digits family) result }
{
    match family {
        Family::Low(low) => match low {
            LowFamily::Reduction => PREDICATE_DIGITS,
            LowFamily::Segment => PREDICATE_DIGITS,
            LowFamily::Long => 0,
        },
        Family::Wide(wide) => match wide {
            WideFamily::Pairwise => PREDICATE_DIGITS,
            WideFamily::Widening => 0,
        },
        Family::Made(_) => 0,
    }
}

// How many digits the second source has in a family's words.
pub fn second_digits(family: Family) -> u32
    ensures { Counted (second_digits family) result }
{
    match family {
        Family::Low(_) => 0,
        Family::Wide(wide) => match wide {
            WideFamily::Pairwise => 0,
            WideFamily::Widening => REGISTER_DIGITS,
        },
        Family::Made(_) => 0,
    }
}

// How many digits Q has in a family's words.
pub fn q_digits(family: Family) -> u32
    ensures { Counted (q_digits family) result }
{
    match family {
        Family::Low(low) => match low {
            LowFamily::Reduction => 0,
            LowFamily::Segment => 0,
            LowFamily::Long => 1,
        },
        Family::Wide(_) => 0,
        Family::Made(_) => 0,
    }
}

// How many digits the pattern has in a family's words.
pub fn pattern_digits(family: Family) -> u32
    ensures { Counted (pattern_digits family) result }
{
    match family {
        Family::Low(_) => 0,
        Family::Wide(_) => 0,
        Family::Made(made) => match made {
            MadeFamily::Patterned => NAMING_DIGITS,
            MadeFamily::Cleared => 0,
        },
    }
}

// The number that `count` digits of a word make, from digit `low` up; 0 where there are none.
fn field_of(word: u32, low: u32, count: u32) -> usize
    requires { (low < word_digits) × (count < word_digits) }
    ensures { result ≡ field low count word }
{
    ((word >> low) % (1 << count)) as usize
}

// The fields of a word of the row at a place, whose family is at hand.
fn fields_at(i: usize, family: Family, word: u32) -> Fields
    requires { family ≡ family_of i }
    ensures { result ≡ fields_at i word }
{
    Fields {
        row: i,
        size: field_of(word, place::SIZE, size_digits(family)),
        n: field_of(word, place::SOURCE, source_digits(family)),
        d: field_of(word, place::DESTINATION, destination_digits(family)),
        g: field_of(word, place::GOVERNING, governing_digits(family)),
        m: field_of(word, place::SECOND, second_digits(family)),
        q: field_of(word, place::Q, q_digits(family)),
        pattern: field_of(word, place::PATTERN, pattern_digits(family)),
    }
}

// The fields that a word decodes to; or UNKNOWN where no row matches, or UNDEFINED where its row does not allow its size.
pub fn decode(word: u32) -> Result<Fields, Refusal>
    ensures { result ≡ decoding (decoded word) }
{
    let Some(i) = rows::row_of(word) else {
        return Err(Refusal::Unknown);
    };
    let form = rows::form_of(i);
    let fields = fields_at(i, form.family, word);
    if allows_size(form, fields.q, fields.size) {
        Ok(fields)
    } else {
        Err(Refusal::Undefined)
    }
}
