// A plain walk on a core: words decoded and executed in turn, and the journal that they must leave, laid out here without the journal's code.
#![tactic(auto)]

ghost use Rattle.std.specs.Prelude.{◌<◌};
ghost use Rattle.registers.specs.Register.{register_count};
ghost use Rattle.registers.specs.State.{state};
ghost use Rattle.meaning.specs.Needs.{Executable};

use facts::Facts;
use machine::Length;
use registers::Kind;
use registers::files::Files;
use words::Fields;

// The mark, and where the version, the length and the count stand.
const MARK: [u8; VERSION_AT] = *b"LNJ";

const VERSION_AT: usize = 3;

const LENGTH_AT: usize = 5;

const COUNT_AT: usize = 6;

// The bytes of the header, and of a register's number.
pub const HEADER: usize = 8;

pub const NUMBER: usize = 1;

// The number of the first predicate, after those of the vectors.
const FIRST_PREDICATE: usize = 32;

// Lays out the header of a journal of a version that holds so many entries, with zeros after it; false where the journal has no room for a header.
fn lay_header(journal: &mut [u8], version: u64, k: Length, count: usize) -> bool {
    if journal.len() < HEADER {
        return false;
    }
    parts::clear(journal);
    parts::overwrite(journal, 0, &MARK);
    parts::put_number(journal, VERSION_AT, LENGTH_AT - VERSION_AT, version);
    parts::put_number(journal, LENGTH_AT, COUNT_AT - LENGTH_AT, k.units as u64);
    parts::put_number(journal, COUNT_AT, HEADER - COUNT_AT, count as u64);
    true
}

// Lays out an entry: a register's number, its old bytes, and zeros after those of a predicate; false where the entry has no room for them.
fn lay_entry(entry: &mut [u8], number: usize, old: &[u8]) -> bool {
    if entry.len() < NUMBER + old.len() {
        return false;
    }
    parts::clear(entry);
    parts::put_number(entry, 0, NUMBER, number as u64);
    parts::overwrite(entry, NUMBER, old);
    true
}

// Lays out the entry of register d of a kind, as it stands in its file.
fn lay_target(files: Files<'_>, kind: Kind, d: usize, entry: &mut [u8]) -> bool
    requires { d < register_count kind }
{
    let number = match kind {
        Kind::Vector => d,
        Kind::Predicate => FIRST_PREDICATE + d,
    };
    lay_entry(entry, number, files.register(kind, d))
}

// Lays out the entry of the register that a word writes, and executes the word; false where the entry has no room.
fn walk_fields(f: Fields, k: Length, z: &mut [u8], p: &mut [u8], entry: &mut [u8]) -> bool
    requires { Executable f k.units (state z.old p.old) }
{
    let kind = executes::kind_written(f.row);
    let files = Files { k, z, p };
    if !lay_target(files, kind, f.d, entry) {
        return false;
    }
    executes::execute(f, k, z, p);
    true
}

// Walks a word, and lays out its entry; false where the files are refused or the word is.
fn walk_word(
    k: usize,
    facts: Facts,
    z: &mut [u8],
    p: &mut [u8],
    word: u32,
    entry: &mut [u8],
) -> bool {
    let Ok(k) = machine::check_files(k, z, p) else {
        return false;
    };
    let Ok(f) = cores::decode(word, facts) else {
        return false;
    };
    walk_fields(f, k, z, p, entry)
}

// Walks so many words of a program, and lays out their entries after the header; false where a word or the room for its entry is missing.
fn walk_words(
    k: Length,
    facts: Facts,
    z: &mut [u8],
    p: &mut [u8],
    program: &[u8],
    journal: &mut [u8],
    steps: usize,
) -> bool {
    let bytes = NUMBER + k.vector_bytes();
    let mut at = HEADER;
    for i in 0..steps {
        let end = at + bytes;
        if journal.len() < end || program.len() / Length::WORD_BYTES <= i {
            return false;
        }
        let word = programs::word_at(program, i);
        if !walk_word(k.units, facts, z, p, word, &mut journal[at..end]) {
            return false;
        }
        at = end;
    }
    true
}

// Walks so many words of a program, and lays out the journal of a version that they leave.
pub fn walk(
    k: Length,
    version: u64,
    facts: Facts,
    z: &mut [u8],
    p: &mut [u8],
    program: &[u8],
    journal: &mut [u8],
    steps: usize,
) -> bool {
    lay_header(journal, version, k, steps) && walk_words(k, facts, z, p, program, journal, steps)
}
