// A program's words: the word at a place, or PROGRAM or END; and a reader that walks a program word by word.
#![tactic(auto)]

ghost use Rattle.std.specs.Prelude.{◌≡◌, ◌+◌, ◌*◌, ◌≤◌, length};
ghost use Rattle.machine.specs.Size.{word_bytes};
ghost use Rattle.programs.specs.Word.{word_at, next_in, next_word};

use machine::{Length, Refusal};

mod held;
pub mod reader;

// The word at a place of a program, and the place that comes next.
#[derive(Clone, Copy)]
pub struct FoundWord {
    pub word: u32,
    pub at: usize,
}

// Word i of a program.
pub fn word_at(program: &[u8], i: usize) -> u32
    requires { i * word_bytes + word_bytes ≤ length program.now }
    ensures { result ≡ word_at program.now i }
{
    parts::number_at(program, i * Length::WORD_BYTES, Length::WORD_BYTES) as u32
}

// The word at a place with the next place; or PROGRAM or END.
pub fn next_word(program: &[u8], at: usize) -> Result<FoundWord, Refusal>
    ensures { next_in at result ≡ next_word program.now at }
{
    machine::check_program(program)?;
    if program.len() / Length::WORD_BYTES <= at {
        return Err(Refusal::End);
    }
    Ok(FoundWord {
        word: word_at(program, at),
        at: at + 1,
    })
}
