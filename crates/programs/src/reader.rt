// A program read word by word, through a reader that holds the lent program and its place.
ghost use Rattle.std.specs.Prelude.{◌≡◌};
ghost use Rattle.programs.specs.Read.{reader_at, read_in, read_next};

use machine::Refusal;

// A lent program and the place in it from which the next word is read.
#[derive(Clone, Copy)]
pub struct Reader<'a> {
    pub program: &'a [u8],
    pub at: usize,
}

// A word that a reader has read, and the reader moved on.
#[derive(Clone, Copy)]
pub struct Taken<'a> {
    pub word: u32,
    pub reader: Reader<'a>,
}

impl<'a> Reader<'a> {
    // A reader at a program's first word.
    pub fn new(program: &'a [u8]) -> Reader<'a>
        ensures { result ≡ reader_at program.entry 0 }
    {
        Reader { program, at: 0 }
    }

    // The next word with the reader moved on; or PROGRAM or END, and the reader is where it was.
    pub fn next(self) -> Result<Taken<'a>, Refusal>
        ensures { read_in self.entry result ≡ read_next self.entry }
    {
        let found = crate::next_word(self.program, self.at)?;
        let reader = Reader {
            at: found.at,
            ..self
        };
        Ok(Taken {
            word: found.word,
            reader,
        })
    }
}
