// The machine's sizes, each named once with the length it belongs to, and the checks of what a caller lends.
#![tactic(auto)]

ghost use Rattle.std.specs.Prelude.{◌≡◌, ◌≤◌, length, IfOk};
ghost use Rattle.machine.specs.Size.{least_length, most_length, is_legal, vector_bytes, predicate_bytes, vector_file, predicate_file};
ghost use Rattle.machine.specs.Refusal.{answered, refused, length_tests, files_tests, program_tests};

mod refusal;

pub use refusal::Refusal;

// The number of done.
pub const DONE: u8 = 0;

// The number that a call is answered with: that of done, or its refusal's.
pub fn answered<T: Drop>(outcome: Result<T, Refusal>) -> u8
    ensures { result ≡ answered outcome }
{
    match outcome {
        Ok(_) => DONE,
        Err(refusal) => refusal.code(),
    }
}

// A vector length: so many units of sixteen bytes, never more than the most.
#[derive(Clone, Copy)]
pub struct Length {
    pub units: usize,
    pub ghost within: { units ≤ most_length },
}

// Whether k is a length that the machine may have: a power of two from the least to the most.
pub fn is_legal(k: usize) -> bool
    ensures { result ≡ is_legal k }
{
    match k {
        1 | 2 | 4 | 8 | 16 => true,
        _ => false,
    }
}

impl Length {
    pub const LEAST: usize = 1;

    pub const MOST: usize = 16;

    // The least length, and the most.
    pub fn least() -> Length
        ensures { result.units ≡ least_length }
    {
        Length {
            units: Length::LEAST,
        }
    }

    pub fn most() -> Length
        ensures { result.units ≡ most_length }
    {
        Length {
            units: Length::MOST,
        }
    }

    // The length of k units; or LENGTH where the machine may not have it.
    pub fn new(k: usize) -> Result<Length, Refusal>
        ensures number { answered result ≡ refused (length_tests k) }
        ensures units { IfOk result (λ length. length.units ≡ k) }
    {
        if is_legal(k) {
            Ok(Length { units: k })
        } else {
            Err(Refusal::Length)
        }
    }

    pub const SEGMENT_BYTES: usize = 16;

    pub const MOST_BYTES: usize = Length::MOST * Length::SEGMENT_BYTES;

    // The bytes of a vector register.
    pub fn vector_bytes(self) -> usize
        ensures { result ≡ vector_bytes self.units }
    {
        Length::SEGMENT_BYTES * self.units
    }

    pub const SEGMENT_PREDICATE: usize = 2;

    // The bytes of a predicate register: a bit for each byte of a vector register.
    pub fn predicate_bytes(self) -> usize
        ensures { result ≡ predicate_bytes self.units }
    {
        Length::SEGMENT_PREDICATE * self.units
    }

    pub const VECTORS: usize = 32;

    // The bytes of the vector file.
    pub fn vector_file(self) -> usize
        ensures { result ≡ vector_file self.units }
    {
        Length::VECTORS * self.vector_bytes()
    }

    pub const PREDICATES: usize = 16;

    pub const GOVERNING: usize = 8;

    // The bytes of the predicate file.
    pub fn predicate_file(self) -> usize
        ensures { result ≡ predicate_file self.units }
    {
        Length::PREDICATES * self.predicate_bytes()
    }

    pub const SIZES: usize = 4;

    pub const WORD_BYTES: usize = 4;

    pub const MOST_WORDS: usize = 256;
}

// The length of k units, whose sizes both files have; or LENGTH or FILE.
pub fn check_files(k: usize, z: &[u8], p: &[u8]) -> Result<Length, Refusal>
    ensures number { answered result ≡ refused (files_tests k (length z.now) (length p.now)) }
    ensures units { IfOk result (λ length. length.units ≡ k) }
{
    let length = Length::new(k)?;
    let fit = z.len() == length.vector_file() && p.len() == length.predicate_file();
    if fit { Ok(length) } else { Err(Refusal::File) }
}

// Whether a program's bytes are refused: PROGRAM.
pub fn check_program(program: &[u8]) -> Result<(), Refusal>
    ensures { answered result ≡ refused (program_tests (length program.now)) }
{
    let whole = program.len() % Length::WORD_BYTES == 0;
    if whole && program.len() <= Length::WORD_BYTES * Length::MOST_WORDS {
        Ok(())
    } else {
        Err(Refusal::Program)
    }
}
