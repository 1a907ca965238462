// One line of a walk, written at the front of what the caller lends.
#![tactic(auto)]

ghost use Rattle.std.specs.Prelude.{◌≡◌, [], ◌∷◌, ◌++◌, ◌+◌, ◌≤◌, length};
ghost use Rattle.machine.specs.Refusal.{DONE, answer_of};
ghost use Rattle.registers.specs.State.{state, read};
ghost use Rattle.programs.specs.Word.{next_in};
ghost use Rattle.words.specs.Encode.{InRange};
ghost use Rattle.meaning.specs.Execute.{target_of};
ghost use Rattle.digits.specs.Digits.{digits_in, decimal};
ghost use Rattle.digits.specs.Put.{Put};
ghost use Rattle.names.specs.Named.{least_out, text_of_word};
ghost use Rattle.lines.specs.Line.{sixteen, word_hex_digits, hex_of, with_space, with_newline, lead, refused_line, accepted_line, asked_word, LineWritten, SessionLineWritten};

use facts::Core;
use machine::{Length, Refusal};
use programs::FoundWord;
use registers::files::Files;
use words::Fields;

// The base of hex, and the hex digits of a byte and of a word.
const SIXTEEN: usize = 16;

const BYTE_DIGITS: usize = 2;

const WORD_DIGITS: usize = 8;

// The decimal digits of the greatest position, and of the number of an accepted step.
const POSITION_DIGITS: usize = 3;

const DONE_DIGITS: usize = 1;

// The bytes of the longest line: position, number, text and register, with a byte after each.
pub const MOST_LINE: usize = (POSITION_DIGITS + 1)
    + (DONE_DIGITS + 1)
    + (names::MOST_TEXT + 1)
    + (BYTE_DIGITS * Length::MOST_BYTES + 1);

// Writes a number in decimal from a place on, and a byte after it.
fn put_field(out: &mut [u8], at: usize, n: usize, after: u8) -> usize
    requires { at + length (decimal n ++ after ∷ []) ≤ length out.old }
    ensures { Put out.old at (decimal n ++ after ∷ []) out.new result }
{
    let end = digits::put_decimal(out, at, n);
    digits::put(out, end, after)
}

// Writes what a line starts with at the front: the position and the answer number.
fn put_lead(out: &mut [u8], position: usize, number: usize) -> usize
    requires { length (lead position number) ≤ length out.old }
    ensures { Put out.old 0 (lead position number) out.new result }
{
    let at = put_field(out, 0, position, b' ');
    put_field(out, at, number, b' ')
}

// Writes bytes in hex from a place on, the last byte first.
fn put_hex(out: &mut [u8], at: usize, bytes: &[u8]) -> usize
    requires { at + length (hex_of bytes.now) ≤ length out.old }
    ensures { Put out.old at (hex_of bytes.now) out.new result }
{
    let mut next = at;
    for i in (0..bytes.len()).rev() {
        next = digits::put_digits(out, next, SIXTEEN, BYTE_DIGITS, bytes[i] as usize);
    }
    next
}

// Writes a word's text from a place on, and a space; it is that of every core, so a core with all facts is asked.
fn put_text(out: &mut [u8], at: usize, word: u32) -> usize
    requires { at + least_out ≤ length out.old }
    ensures { Put out.old at (with_space (text_of_word word)) out.new result }
{
    let length = names::text(word, facts::all(), &mut out[at..]).unwrap_or(0);
    digits::put(out, at + length, b' ')
}

// Writes a register in hex from a place on, and a newline.
fn put_register(out: &mut [u8], at: usize, register: &[u8]) -> usize
    requires { at + length (with_newline (hex_of register.now)) ≤ length out.old }
    ensures { Put out.old at (with_newline (hex_of register.now)) out.new result }
{
    let end = put_hex(out, at, register);
    digits::put(out, end, b'\n')
}

// Writes a word in hex from a place on, and a newline.
fn put_word(out: &mut [u8], at: usize, word: u32) -> usize
    requires { at + length (with_newline (digits_in sixteen word_hex_digits word)) ≤ length out.old }
    ensures { Put out.old at (with_newline (digits_in sixteen word_hex_digits word)) out.new result }
{
    let end = digits::put_digits(out, at, SIXTEEN, WORD_DIGITS, word as usize);
    digits::put(out, end, b'\n')
}

// The register that a word writes, lent on from the file of its kind.
fn register_written<'a>(files: Files<'a>, f: Fields) -> &'a [u8]
    requires { InRange f }
    ensures { result.now ≡ read files.entry.k.units (target_of f) (state files.entry.z.now files.entry.p.now) }
{
    files.register(executes::kind_written(f.row), f.d)
}

// Writes the line of an accepted step: the word's text, and the register.
fn put_accepted(out: &mut [u8], position: usize, word: u32, register: &[u8]) -> usize
    requires { (length (lead position DONE) + least_out ≤ length out.old) × (length (accepted_line position word register.now) ≤ length out.old) }
    ensures { Put out.old 0 (accepted_line position word register.now) out.new result }
{
    let text = put_lead(out, position, machine::DONE as usize);
    let at = put_text(out, text, word);
    put_register(out, at, register)
}

// Writes the line of a refused step: the word.
fn put_refused(out: &mut [u8], position: usize, number: usize, word: u32) -> usize
    requires { length (refused_line position number word) ≤ length out.old }
    ensures { Put out.old 0 (refused_line position number word) out.new result }
{
    let at = put_lead(out, position, number);
    put_word(out, at, word)
}

// The word that a line is asked of, in an output of n bytes; or PROGRAM, END or OUT.
fn placed_word(
    files: Files<'_>,
    program: &[u8],
    position: usize,
    n: usize,
) -> Result<FoundWord, Refusal>
    ensures { next_in position result ≡ asked_word files.entry.k.units (state files.entry.z.now files.entry.p.now) program.now position n }
{
    let found = programs::next_word(program, position)?;
    if n < MOST_LINE {
        return Err(Refusal::Out);
    }
    Ok(found)
}

// Writes the line of the step at a position, which answered this number and left these files, at the front of the output, and
// answers its length; bytes past it stay. Refused: LENGTH, FILE, PROGRAM, END, OUT, and UNKNOWN and UNDEFINED for a step told done whose word the core does not accept.
pub fn write_line<'a>(
    out: &mut [u8],
    core: Core,
    z: &'a [u8],
    p: &'a [u8],
    program: &[u8],
    position: usize,
    number: u64,
) -> Result<usize, Refusal>
    ensures { LineWritten core.k core.facts (state z.now p.now) program.now position number out.old out.new (answer_of result) }
{
    let files = Files::new(core.k, z, p)?;
    let found = placed_word(files, program, position, out.len())?;
    if number != machine::DONE as u64 {
        return Ok(put_refused(out, position, number as usize, found.word));
    }
    let fields = cores::decode(found.word, core.facts)?;
    let register = register_written(files, fields);
    Ok(put_accepted(out, position, found.word, register))
}

// Writes the line of a session that is refused at the front of the output, and answers its length. Refused: OUT.
pub fn write_session_refusal(out: &mut [u8]) -> Result<usize, Refusal>
    ensures { SessionLineWritten out.old out.new (answer_of result) }
{
    if out.len() < MOST_LINE {
        return Err(Refusal::Out);
    }
    Ok(put_field(out, 0, Refusal::Session as usize, b'\n'))
}
