// The operands of a word: which registers they are, what follows their numbers, and how they are written.
#![tactic(auto)]

ghost use Rattle.std.specs.Prelude.{◌≡◌, cond, ◌+◌, ◌-◌, ◌≤◌, ◌<◌, length};
ghost use Rattle.machine.specs.Size.{sizes};
ghost use Rattle.digits.specs.Put.{Put};
ghost use Rattle.operands.specs.Operands.{letter_of, lanes_of, suffix_text, operand, operand_text, further, further_pattern, destination_operand, governing_operand, source_operand};

use digits::{put, put_bytes, put_decimal};
use machine::Length;
use rows::{Family, LowFamily, WideFamily};
use words::Fields;

// What follows a register's number: nothing, the lanes' size, their count and size, or that inactive lanes merge.
#[derive(Clone, Copy)]
pub enum Suffix {
    Plain,
    Lane(usize),
    Lanes(usize, usize),
    Merging,
}

// A register as an operand.
#[derive(Clone, Copy)]
pub struct Operand {
    pub letter: u8,
    pub number: usize,
    pub suffix: Suffix,
}

// The letters of the sizes.
const LETTERS: [u8; Length::SIZES] = *b"bhsd";

// The letter of a size; 0 past the last size.
fn letter_of(size: usize) -> u8
    ensures { result ≡ letter_of size }
{
    LETTERS.get(size).copied().unwrap_or(0)
}

// How many lanes of a size the low 8 bytes (Q = 0) or 16 bytes (Q = 1) of a register have.
fn lanes_of(q: usize, size: usize) -> usize
    requires { (q < 2) × (size < sizes) }
    ensures { result ≡ lanes_of q size }
{
    (8 << q) >> size
}

// Writes a count of lanes and their size.
fn put_lanes(out: &mut [u8], at: usize, count: usize, size: usize) -> usize
    requires { at + length (suffix_text (Suffix.Lanes count size)) ≤ length out.old }
    ensures { Put out.old at (suffix_text (Suffix.Lanes count size)) out.new result }
{
    let next = put(out, at, b'.');
    let last = put_decimal(out, next, count);
    put(out, last, letter_of(size))
}

// Writes what follows a register's number.
fn put_suffix(out: &mut [u8], at: usize, suffix: Suffix) -> usize
    requires { at + length (suffix_text suffix) ≤ length out.old }
    ensures { Put out.old at (suffix_text suffix) out.new result }
{
    match suffix {
        Suffix::Plain => at,
        Suffix::Lane(size) => put_bytes(out, at, &[b'.', letter_of(size)]),
        Suffix::Lanes(count, size) => put_lanes(out, at, count, size),
        Suffix::Merging => put_bytes(out, at, b"/m"),
    }
}

// Writes an operand.
pub fn put_operand(out: &mut [u8], at: usize, operand: Operand) -> usize
    requires { at + length (operand_text operand) ≤ length out.old }
    ensures { Put out.old at (operand_text operand) out.new result }
{
    let number = put(out, at, operand.letter);
    let after = put_decimal(out, number, operand.number);
    put_suffix(out, after, operand.suffix)
}

// Writes a further operand, with the comma and the space before it, where its field has digits.
pub fn put_further(out: &mut [u8], at: usize, digits: u32, operand: Operand) -> usize
    requires { at + length (further digits operand) ≤ length out.old }
    ensures { Put out.old at (further digits operand) out.new result }
{
    if digits == 0 {
        return at;
    }
    let next = put_bytes(out, at, b", ");
    put_operand(out, next, operand)
}

// Writes a pattern, with the comma and the space before it, where its field has digits.
pub fn put_further_pattern(out: &mut [u8], at: usize, digits: u32, pattern: usize) -> usize
    requires { at + length (further_pattern digits pattern) ≤ length out.old }
    ensures { Put out.old at (further_pattern digits pattern) out.new result }
{
    if digits == 0 {
        return at;
    }
    let next = put_bytes(out, at, b", ");
    patterns::put_pattern(out, next, pattern)
}

// An operand: a register's letter, its number and what follows.
fn register(letter: u8, number: usize, suffix: Suffix) -> Operand
    ensures { result ≡ operand letter number suffix }
{
    Operand {
        letter,
        number,
        suffix,
    }
}

// The size of half the width of another's lanes.
fn half(size: usize) -> usize
    ensures { result ≡ size - 1 }
{
    size.saturating_sub(1)
}

// The size of a widening word's source: the full width's, or that of half the width.
fn widening_size(full: bool, size: usize) -> usize
    ensures { result ≡ cond full size (size - 1) }
{
    if full { size } else { half(size) }
}

// The destination of a word of a family.
pub fn destination(family: Family, f: Fields) -> Operand
    requires { (f.size < sizes) × (f.q < 2) }
    ensures { result ≡ destination_operand family f }
{
    let size = f.size;
    match family {
        Family::Low(LowFamily::Reduction) => register(b'd', f.d, Suffix::Plain),
        Family::Low(LowFamily::Segment) => {
            register(b'v', f.d, Suffix::Lanes(lanes_of(1, size), size))
        }
        Family::Low(LowFamily::Long) => register(letter_of(size + 1), f.d, Suffix::Plain),
        Family::Wide(_) => register(b'z', f.d, Suffix::Lane(size)),
        Family::Made(_) => register(b'p', f.d, Suffix::Lane(size)),
    }
}

// The governing predicate of a word of a family; one that makes a predicate has no field for it.
pub fn governing(family: Family, f: Fields) -> Operand
    ensures { result ≡ governing_operand family f }
{
    match family {
        Family::Low(_) => register(b'p', f.g, Suffix::Plain),
        Family::Wide(_) => register(b'p', f.g, Suffix::Merging),
        Family::Made(_) => register(b'p', f.g, Suffix::Plain),
    }
}

// The source of this number of a word of a family; one that makes a predicate has no field for it.
pub fn source(family: Family, full: bool, number: usize, f: Fields) -> Operand
    requires { (f.size < sizes) × (f.q < 2) }
    ensures { result ≡ source_operand family full number f }
{
    let size = f.size;
    match family {
        Family::Low(LowFamily::Reduction | LowFamily::Segment) | Family::Made(_) => {
            register(b'z', number, Suffix::Lane(size))
        }
        Family::Low(LowFamily::Long) => {
            register(b'v', number, Suffix::Lanes(lanes_of(f.q, size), size))
        }
        Family::Wide(WideFamily::Pairwise) => register(b'z', number, Suffix::Lane(half(size))),
        Family::Wide(WideFamily::Widening) => {
            register(b'z', number, Suffix::Lane(widening_size(full, size)))
        }
    }
}
