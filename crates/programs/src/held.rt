// A caller that keeps the contracts of the reader: it promises again from them alone what a reader made of a program answers first, so a
// contract that is cut down is refused here. No host calls it.
ghost use Rattle.std.specs.Prelude.{◌≡◌};
ghost use Rattle.programs.specs.Read.{reader_at, read_in, read_next};

use crate::reader::{Reader, Taken};
use machine::Refusal;

// A reader made by its call, and what it answers: the number, the word and the reader moved on.
pub(crate) fn held_reader<'a>(program: &'a [u8]) -> Result<Taken<'a>, Refusal>
    ensures { read_in (reader_at program.entry 0) result ≡ read_next (reader_at program.entry 0) }
{
    Reader::new(program).next()
}
