// What the trials start from: bytes filled by a rule that a reader can repeat, and a program of every row.
#![tactic(auto)]

ghost use Rattle.std.specs.Prelude.{◌≤◌, ◌<◌, ◌≡◌, length};
ghost use Rattle.programs.specs.Word.{words_of};
ghost use Rattle.fillings.specs.Filled.{byte_values, vector_seed, predicate_seed, filled_from, filled_words};

use machine::Length;

// The bytes of the longest vector file and of the longest predicate file.
pub const MOST_VECTORS: usize = Length::VECTORS * Length::MOST_BYTES;

pub const MOST_PREDICATES: usize = Length::PREDICATES * Length::SEGMENT_PREDICATE * Length::MOST;

// How many values a byte has: a cut that leaves each value as it is.
const BYTE_VALUES: u64 = 256;

// The seeds of a vector file and of a predicate file.
const VECTOR_SEED: u8 = 3;

const PREDICATE_SEED: u8 = 5;

// Fills bytes by the rule: the first value is the seed, each next is 7 times the last and 11, modulo 251; a byte is what is left of
// its value after division by the cut.
#[tactic(auto, using(crate::proofs::Filling::filled_next, crate::proofs::Filling::filled_all))]
pub fn fill(bytes: &mut [u8], seed: u8, cut: u64)
    requires { (0 < cut) × (cut ≤ byte_values) }
    ensures { bytes.new ≡ filled_from cut (length bytes.old) seed }
{
    let mut value = u64::from(seed);
    for byte in bytes.iter_mut() {
        *byte = (value % cut) as u8;
        value = (value * 7 + 11) % 251;
    }
}

// Fills a vector file.
pub fn fill_vectors(z: &mut [u8])
    ensures { z.new ≡ filled_from byte_values (length z.old) vector_seed }
{
    fill(z, VECTOR_SEED, BYTE_VALUES);
}

// Fills a predicate file.
pub fn fill_predicates(p: &mut [u8])
    ensures { p.new ≡ filled_from byte_values (length p.old) predicate_seed }
{
    fill(p, PREDICATE_SEED, BYTE_VALUES);
}

// How many words there are.
pub const COUNT: usize = 26;

// The words that are executed, at least one of every row: each that writes a vector has it among its sources, and the first that makes a predicate
// makes the one that governs the others.
const SADDV: u64 = 0x04002463;

const UADDV: u64 = 0x04C12463;

const ADDQV: u64 = 0x04452463;

const SADDLV: u64 = 0x4E303863;

const UADDLV: u64 = 0x6EB03863;

const SADALP: u64 = 0x4444A463;

const UADALP: u64 = 0x44C5A463;

const SADDLB: u64 = 0x45430063;

const SADDLT: u64 = 0x45830463;

const UADDLB: u64 = 0x45C30863;

const UADDLT: u64 = 0x45430C63;

const SSUBLB: u64 = 0x45441063;

const SSUBLT: u64 = 0x45831483;

const USUBLB: u64 = 0x45C51863;

const USUBLT: u64 = 0x45431CA3;

const SADDWB: u64 = 0x45834063;

const SADDWT: u64 = 0x45C44463;

const UADDWB: u64 = 0x45434883;

const UADDWT: u64 = 0x45854C63;

const SSUBWB: u64 = 0x45C350A3;

const SSUBWT: u64 = 0x45435463;

const USUBWB: u64 = 0x45845863;

const USUBWT: u64 = 0x45C35C83;

const PTRUE_MULTIPLE: u64 = 0x2558E3C1;

const PTRUE_FIXED: u64 = 0x2558E123;

const PFALSE: u64 = 0x2518E40F;

const WORDS: [u64; COUNT] = [
    SADDV,
    UADDV,
    ADDQV,
    SADDLV,
    UADDLV,
    SADALP,
    UADALP,
    SADDLB,
    SADDLT,
    UADDLB,
    UADDLT,
    SSUBLB,
    SSUBLT,
    USUBLB,
    USUBLT,
    SADDWB,
    SADDWT,
    UADDWB,
    UADDWT,
    SSUBWB,
    SSUBWT,
    USUBWB,
    USUBWT,
    PTRUE_MULTIPLE,
    PTRUE_FIXED,
    PFALSE,
];

// Fills a program with those words, one after the other and again from the first.
#[tactic(auto, unfolding(crate::specs::Filled::filled_words))]
pub fn fill_words(program: &mut [u8])
    ensures { program.new ≡ filled_words (words_of (length program.old)) program.old }
{
    for i in 0..program.len() / Length::WORD_BYTES {
        parts::put_number(
            program,
            i * Length::WORD_BYTES,
            Length::WORD_BYTES,
            WORDS[i % COUNT],
        );
    }
}
