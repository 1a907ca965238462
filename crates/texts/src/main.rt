// Names words and reads their texts back, and tries texts that no word reads as, on a core with all facts; then some on others. Each
// line of a word has the word, the number that naming answers, and where that is 0 the text and the word that the text assembles to;
// after a row's words one has the numbers on every core. Each line of a text has the number that assembling answers and the text in
// brackets.
#![tactic(auto)]

ghost use Rattle.std.specs.Prelude.{◌<◌};
ghost use Rattle.machine.specs.Size.{sizes};

use facts::Facts;
use machine::Length;
use patterns::PATTERNS;
use rows::ROWS;
use std::io;

// Every digit but those of the size.
const NO_SIZE: u32 = 0xFF3FFFFF;

// The words of document 01: its session, M12, and two of no row.
const WORDS: [u32; 9] = [
    0x04002020, 0x2E303822, 0x45410023, 0x04C02020, 0x2EB03800, 0x45000000, 0x6EB03800, 0,
    0xFFFFFFFF,
];

// The word of `ptrue p0.b, pow2`, whose other patterns have further digits.
const PTRUE: u32 = 0x2518E000;

// The word of a row with a size and every other field at its least, or at its most.
fn word_of(row: usize, size: u32, most: bool) -> u32
    requires { size < sizes }
{
    let entry = rows::row_at(row);
    let least = entry.2 | (size << words::place::SIZE);
    if most {
        return least | ((0xFFFFFFFF - entry.1) & NO_SIZE);
    }
    least
}

// A word's line.
fn show_word(rt: &impl Print, word: u32) -> io::Result<()> {
    let mut out = [0u8; names::LEAST_OUT];
    let named = names::text(word, facts::all(), &mut out);
    let number = machine::answered(named);
    print!(rt; "{word:08x} {number}")?;
    if let Ok(count) = named {
        let read = assembles::assemble(&out[..count], facts::all()).unwrap_or(0);
        rt.write_all(b" ")?;
        rt.write_all(&out[..count])?;
        print!(rt; " {read:08x}")?;
    }
    rt.write_all(b"\n")
}

// A row's lines: each size, with the other fields at their least and at their most.
fn show_row(rt: &impl Print, row: usize) -> io::Result<()> {
    for size in 0..Length::SIZES as u32 {
        show_word(rt, word_of(row, size, false))?;
        show_word(rt, word_of(row, size, true))?;
    }
    Ok(())
}

// The number that naming a word answers on a core whose facts a byte tells.
fn number_on(byte: u8, word: u32) -> u8 {
    let mut out = [0u8; names::LEAST_OUT];
    machine::answered(names::text(word, facts::facts_of(byte), &mut out))
}

// The size of a row's word that is named on each core: 1, or 0 where its words have no other.
fn size_on_each(row: usize) -> u32
    ensures { result < sizes }
{
    u32::from(words::size_digits(rows::family_of(row)) != 0)
}

// A row's line: a word of it, and the number that naming it answers on each core, whose facts are the bits of 0 to 31.
fn show_needs(rt: &impl Print, row: usize) -> io::Result<()> {
    let word = word_of(row, size_on_each(row), false);
    print!(rt; "{word:08x} ")?;
    for byte in 0..facts::ALL + 1 {
        rt.print(number_on(byte, word))?;
    }
    rt.write_all(b"\n")
}

// The lines of all rows, on a core with all facts and then on each core.
fn show_rows(rt: &impl Print) -> io::Result<()> {
    for row in 0..ROWS {
        show_row(rt, row)?;
        show_needs(rt, row)?;
    }
    Ok(())
}

// The lines of the paper's words.
fn show_words(rt: &impl Print) -> io::Result<()> {
    for word in WORDS {
        show_word(rt, word)?;
    }
    Ok(())
}

// The lines of every pattern.
fn show_patterns(rt: &impl Print) -> io::Result<()> {
    for pattern in 0..PATTERNS as u32 {
        show_word(rt, PTRUE | (pattern << words::place::PATTERN))?;
    }
    Ok(())
}

// A text's line, on a core with all facts.
fn show_text(rt: &impl Print, text: &[u8]) -> io::Result<()> {
    show_text_on(rt, facts::all(), text)
}

// A text's line on a core.
fn show_text_on(rt: &impl Print, facts: Facts, text: &[u8]) -> io::Result<()> {
    let number = machine::answered(assembles::assemble(text, facts));
    print!(rt; "{number} [")?;
    rt.write_all(text)?;
    rt.write_all(b"]\n")
}

// Texts that differ from an accepted one in a byte or two.
fn show_near_misses(rt: &impl Print) -> io::Result<()> {
    show_text(rt, b"saddv d0, p0, z1.d")?;
    show_text(rt, b"saddv d00, p0, z1.b")?;
    show_text(rt, b"saddv d0, p0, z01.b")?;
    show_text(rt, b"Saddv d0, p0, z1.b")?;
    show_text(rt, b"saddv d0, p0, z1.B")?;
    show_text(rt, b"saddv  d0, p0, z1.b")?;
    show_text(rt, b"saddv d0,  p0, z1.b")?;
    show_text(rt, b"saddv d0 p0, z1.b")?;
    show_text(rt, b"saddv d0,p0, z1.b")?;
    show_text(rt, b"saddv d0, p8, z1.b")?;
    show_text(rt, b"saddv d32, p0, z1.b")?;
    show_text(rt, b"saddv d0, p0, z32.b")?;
    show_text(rt, b"saddv d0, p0, z100.b")?;
    show_text(rt, b"saddv s0, p0, z1.b")?;
    show_text(rt, b"saddv d0, p0/m, z1.b")?;
    show_text(rt, b"saddv d0, p0, z1")?;
    show_text(rt, b"saddv d0, p0, z1.b ")?;
    show_text(rt, b" saddv d0, p0, z1.b")?;
    show_text(rt, b"saddv d0, p0, z1.b\n")?;
    show_text(rt, b"saddv")?;
    show_text(rt, b"")
}

// Texts whose widths or arrangements do not fit.
fn show_misfits(rt: &impl Print) -> io::Result<()> {
    show_text(rt, b"addqv v0.8b, p0, z1.b")?;
    show_text(rt, b"addqv v0.16b, p0, z1.h")?;
    show_text(rt, b"uaddlv s0, v1.8b")?;
    show_text(rt, b"uaddlv h0, v1.4b")?;
    show_text(rt, b"uaddlv d0, v0.2s")?;
    show_text(rt, b"uaddlv q0, v0.2d")?;
    show_text(rt, b"sadalp z0.h, p0/m, z1.h")?;
    show_text(rt, b"sadalp z0.b, p0/m, z1.b")?;
    show_text(rt, b"sadalp z0.h, p0, z1.b")?;
    show_text(rt, b"sadalp z0.h, p0/z, z1.b")?;
    show_text(rt, b"saddlb z0.h, z1.b, z1.h")?;
    show_text(rt, b"saddlb z0.h, z1.h, z1.h")?;
    show_text(rt, b"saddlb z0.h, z1.b")?;
    show_text(rt, b"saddwb z0.h, z1.b, z1.b")?;
    show_text(rt, b"saddwb z0.h, z1.h, z1.h")?;
    show_text(rt, b"saddwb z0.b, z1.b, z1.b")?;
    show_text(rt, b"ssublb z0.h, z1.h, z1.b")?;
    show_text(rt, b"ssubwb z0.h, z1.h")?;
    show_text(rt, b"ssubv d0, p0, z1.b")
}

// Texts that are nearly one of a made predicate.
fn show_made_misses(rt: &impl Print) -> io::Result<()> {
    show_text(rt, b"ptrue p0.b")?;
    show_text(rt, b"ptrue p0.b,")?;
    show_text(rt, b"ptrue p0.b, ")?;
    show_text(rt, b"ptrue p0.b, #31")?;
    show_text(rt, b"ptrue p0.b, #5")?;
    show_text(rt, b"ptrue p0.b, #32")?;
    show_text(rt, b"ptrue p0.b, #0x1f")?;
    show_text(rt, b"ptrue p0.b, 14")?;
    show_text(rt, b"ptrue p0.b, vl9")?;
    show_text(rt, b"ptrue p0.b, vl016")?;
    show_text(rt, b"ptrue p0.b, ALL")?;
    show_text(rt, b"ptrue p0.b,all")?;
    show_text(rt, b"ptrue p0.b,  all")?;
    show_text(rt, b"ptrue p0.b, all ")?;
    show_text(rt, b"ptrue p0.b all")?;
    show_text(rt, b"ptrue p0.b, all, all")?;
    show_text(rt, b"ptrue p0, all")?;
    show_text(rt, b"ptrue p0.q, all")?;
    show_text(rt, b"ptrue p00.b, all")?;
    show_text(rt, b"ptrue p16.b, all")?;
    show_text(rt, b"ptrue z0.b, all")?;
    show_text(rt, b"ptrues p0.b, all")?;
    show_text(rt, b"pfalse p3.h")?;
    show_text(rt, b"pfalse p3")?;
    show_text(rt, b"pfalse p16.b")?;
    show_text(rt, b"pfalse p3.b, all")
}

// A text of 10,000 bytes: its line has the number alone.
fn show_long(rt: &impl Print) -> io::Result<()> {
    let text = [b'z'; 10000];
    rt.println(machine::answered(assembles::assemble(&text, facts::all())))
}

// Texts that some cores have and others do not.
fn show_texts_on(rt: &impl Print, facts: Facts) -> io::Result<()> {
    show_text_on(rt, facts, b"saddv d0, p0, z1.b")?;
    show_text_on(rt, facts, b"addqv v0.16b, p0, z1.b")?;
    show_text_on(rt, facts, b"uaddlv h2, v1.8b")?;
    show_text_on(rt, facts, b"sadalp z0.h, p0/m, z1.b")?;
    show_text_on(rt, facts, b"usubwt z0.h, z1.h, z2.b")?;
    show_text_on(rt, facts, b"ptrue p3.h, vl16")?;
    show_text_on(rt, facts, b"pfalse p3.b")
}

fn main(rt: HostRuntime) -> io::Result<()> {
    show_rows(&rt)?;
    show_words(&rt)?;
    show_patterns(&rt)?;
    show_near_misses(&rt)?;
    show_misfits(&rt)?;
    show_made_misses(&rt)?;
    show_long(&rt)?;
    show_texts_on(&rt, facts::none())?;
    show_texts_on(&rt, facts::facts_of(facts::bit::SVE))?;
    show_texts_on(&rt, facts::facts_of(facts::bit::SVE2))?;
    show_texts_on(&rt, facts::facts_of(facts::bit::SME))?;
    show_texts_on(&rt, facts::facts_of(facts::bit::SME2P1))
}
