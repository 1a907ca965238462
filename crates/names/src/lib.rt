// A word's text: its name, its operands and its pattern, written into what the caller lends.
#![tactic(auto)]

mod row;

ghost use Rattle.std.specs.Prelude.{◌≡◌, ◌++◌, ◌≤◌, ◌<◌, length};
ghost use Rattle.parts.specs.Text.{bytes};
ghost use Rattle.machine.specs.Refusal.{answer_of};
ghost use Rattle.rows.specs.Table.{rows};
ghost use Rattle.words.specs.Encode.{InRange};
ghost use Rattle.digits.specs.Put.{Put};
ghost use Rattle.names.specs.Text.{name_of, text_of};
ghost use Rattle.names.specs.Named.{least_out, Named};

use digits::{put, put_bytes};
use facts::Facts;
use machine::Refusal;
use row::key_of;
pub use row::row_named;
use words::Fields;

// The bytes of the longest text.
pub const MOST_TEXT: usize = 26;

// The least output that naming takes.
pub const LEAST_OUT: usize = 32;

// Writes a row's name and the space after it at the front.
fn put_name(out: &mut [u8], row: usize) -> usize
    requires { (7 ≤ length out.old) × (row < rows) }
    ensures { Put out.old 0 (name_of row ++ bytes " ") out.new result }
{
    let key = key_of(row);
    let next = put_bytes(out, 0, &key);
    if key[5] == b' ' {
        next
    } else {
        put(out, next, b' ')
    }
}

// Writes the text of a word with these fields at the front, and answers its length.
fn put_text(out: &mut [u8], f: Fields) -> usize
    requires { (least_out ≤ length out.old) × InRange f }
    ensures { Put out.old 0 (text_of f) out.new result }
{
    let form = rows::form_of(f.row);
    let family = form.family;
    let first = put_name(out, f.row);
    let second = operands::put_operand(out, first, operands::destination(family, f));
    let third = operands::put_further(
        out,
        second,
        words::governing_digits(family),
        operands::governing(family, f),
    );
    let fourth = operands::put_further(
        out,
        third,
        words::source_digits(family),
        operands::source(family, form.parameters.wide, f.n, f),
    );
    let last = operands::put_further(
        out,
        fourth,
        words::second_digits(family),
        operands::source(family, false, f.m, f),
    );
    operands::put_further_pattern(out, last, words::pattern_digits(family), f.pattern)
}

// A word's text at the front of the output, and its length; bytes past it stay. Refused: OUT, UNKNOWN, UNDEFINED.
pub fn text(word: u32, facts: Facts, out: &mut [u8]) -> Result<usize, Refusal>
    ensures { Named word facts out.old out.new (answer_of result) }
{
    if out.len() < LEAST_OUT {
        return Err(Refusal::Out);
    }
    let fields = cores::decode(word, facts)?;
    Ok(put_text(out, fields))
}
