// The library in a host's hands: thin calls under one prefix, for C and Rust; those that a pane asks with stand in `asked`. A slice is a pointer and then
// a length; a core's facts are a byte.
#![tactic(auto)]

ghost use Rattle.std.specs.Prelude.{◌≡◌};
ghost use Rattle.machine.specs.Refusal.{answer_of};
ghost use Rattle.registers.specs.State.{state};
ghost use Rattle.facts.specs.Facts.{facts_of};
ghost use Rattle.names.specs.Named.{Named};
ghost use Rattle.assembles.specs.Assembled.{Assembled};
ghost use Rattle.journal.specs.Left.{core_of, buffers_of};
ghost use Rattle.journal.specs.Calls.{Freshened};
ghost use Rattle.steps.specs.Calls.{Stepped, Backed};
ghost use Rattle.lines.specs.Line.{LineWritten};
ghost use Rattle.ln.specs.Posts.{WordDecoded, WordRead, SessionRead, PositionTold, VersionTold};
ghost use Rattle.ln.specs.Outside.{answer_in, answer_out};

use facts::Core;
use machine::Refusal;

pub mod asked;
mod held;

// An answer with a value, which is 0 with a refusal.
#[repr(C)]
#[derive(Clone, Copy, Default)]
pub struct LnAnswer {
    pub number: u64,
    pub value: u64,
}

// A word's fields; one that its row does not have is 0, and all are 0 with a refusal.
#[repr(C)]
#[derive(Clone, Copy, Default)]
pub struct LnFields {
    pub number: u64,
    pub row: u64,
    pub size: u64,
    pub n: u64,
    pub d: u64,
    pub g: u64,
    pub m: u64,
    pub q: u64,
    pub pattern: u64,
}

// Where a register stands: in which file, its first byte and how many; 0 with a refusal.
#[repr(C)]
#[derive(Clone, Copy, Default)]
pub struct LnPlace {
    pub number: u64,
    pub predicate: u64,
    pub start: u64,
    pub bytes: u64,
}

// A program's word and the place after it; with a refusal 0 and the place unmoved.
#[repr(C)]
#[derive(Clone, Copy)]
pub struct LnWord {
    pub number: u64,
    pub word: u64,
    pub at: u64,
}

// A session's length and count, where its files and its program lie in the bytes, and the byte of its facts; 0 with a refusal.
#[repr(C)]
#[derive(Clone, Copy, Default)]
pub struct LnSession {
    pub number: u64,
    pub k: u64,
    pub count: u64,
    pub vectors: u64,
    pub predicates: u64,
    pub program: u64,
    pub facts: u64,
}

// A lane: its integer at 64 bits, whether it is active, its first byte in the vector file and its bit in the predicate register; 0 with a
// refusal.
#[repr(C)]
#[derive(Clone, Copy, Default)]
pub struct LnLane {
    pub number: u64,
    pub value: u64,
    pub active: u64,
    pub start: u64,
    pub bit: u64,
}

// A journal's entry: its number, which is a vector register's or 32 above a predicate register's, and where that register's old bytes stand in
// the journal and how many; 0 with a refusal.
#[repr(C)]
#[derive(Clone, Copy, Default)]
pub struct LnEntry {
    pub number: u64,
    pub target: u64,
    pub start: u64,
    pub bytes: u64,
}

// What a row is: flags, the byte of facts of which one is enough, and for sizes 0 to 3 the bytes of the lanes that its words read and write,
// or that a predicate which they write governs; 0 with a refusal.
#[repr(C)]
#[derive(Clone, Copy, Default)]
pub struct LnRowAbout {
    pub number: u64,
    pub is_signed: u64,
    pub has_g: u64,
    pub has_m: u64,
    pub has_q: u64,
    pub reads_destination: u64,
    pub need: u64,
    pub n_bytes: [u64; 4],
    pub m_bytes: [u64; 4],
    pub d_bytes: [u64; 4],
    pub has_n: u64,
    pub has_pattern: u64,
    pub writes_predicate: u64,
}

// The core that a host asks of, whose facts a byte tells.
fn core_of(k: usize, facts: u8) -> Core
    ensures { result ≡ record { k = k; facts = facts_of facts } }
{
    Core {
        k,
        facts: facts::facts_of(facts),
    }
}

// An outcome with a value as a host is answered: the number, and the value, which is 0 with a refusal.
impl From<Result<u64, Refusal>> for LnAnswer {
    ghost from_gives = { λ outcome answer. answer ≡ answer_out (answer_of outcome) };

    fn from(outcome: Result<u64, Refusal>) -> LnAnswer {
        match outcome {
            Ok(value) => LnAnswer {
                number: machine::DONE as u64,
                value,
            },
            Err(refusal) => LnAnswer {
                number: refusal.code() as u64,
                ..LnAnswer::default()
            },
        }
    }
}

// The version of the header that the library is for.
const VERSION: u64 = 8;

// The version of the header that the library is for.
#[unsafe(no_mangle)]
pub extern "C" fn ln_version() -> u64
    ensures { VersionTold result }
{
    VERSION
}

// A word's fields on a core, or UNKNOWN or UNDEFINED.
#[unsafe(no_mangle)]
pub extern "C" fn ln_decode(word: u32, facts: u8) -> LnFields
    ensures { WordDecoded word facts result }
{
    match cores::decode(word, facts::facts_of(facts)) {
        Ok(f) => LnFields {
            number: machine::DONE as u64,
            row: f.row as u64,
            size: f.size as u64,
            n: f.n as u64,
            d: f.d as u64,
            g: f.g as u64,
            m: f.m as u64,
            q: f.q as u64,
            pattern: f.pattern as u64,
        },
        Err(refusal) => LnFields {
            number: refusal.code() as u64,
            ..LnFields::default()
        },
    }
}

// A word's text on a core at the front of the output, or OUT, UNKNOWN or UNDEFINED.
#[unsafe(no_mangle)]
pub extern "C" fn ln_text(word: u32, facts: u8, out: &mut [u8]) -> LnAnswer
    ensures { Named word (facts_of facts) out.old out.new (answer_in result) }
{
    let length = names::text(word, facts::facts_of(facts), out);
    LnAnswer::from(length.map(|length| length as u64))
}

// The word that a core accepts and that reads as a text, or TEXT.
#[unsafe(no_mangle)]
pub extern "C" fn ln_assemble(text: &[u8], facts: u8) -> LnAnswer
    ensures { Assembled text.now (facts_of facts) (answer_in result) }
{
    let word = assembles::assemble(text, facts::facts_of(facts));
    LnAnswer::from(word.map(|word| word as u64))
}

// The word at a place of a program with the place after it, or PROGRAM or END.
#[unsafe(no_mangle)]
pub extern "C" fn ln_read_word(program: &[u8], at: usize) -> LnWord
    ensures { WordRead program.now at result }
{
    match programs::next_word(program, at) {
        Ok(found) => LnWord {
            number: machine::DONE as u64,
            word: found.word as u64,
            at: found.at as u64,
        },
        Err(refusal) => LnWord {
            number: refusal.code() as u64,
            word: 0,
            at: at as u64,
        },
    }
}

// Where a session's parts lie and the byte of its facts, or SESSION.
#[tactic(auto, unfolding(facts::specs::Facts::byte_of, facts::specs::Facts::no_facts))]
#[unsafe(no_mangle)]
pub extern "C" fn ln_read_session(bytes: &[u8]) -> LnSession
    ensures { SessionRead bytes.now result }
{
    match session::read_session(bytes) {
        Ok(session) => LnSession {
            number: machine::DONE as u64,
            k: session.k as u64,
            count: session.count as u64,
            vectors: session.vectors as u64,
            predicates: session.predicates as u64,
            program: session.program as u64,
            facts: facts::byte_of(session.facts) as u64,
        },
        Err(refusal) => LnSession {
            number: refusal.code() as u64,
            ..LnSession::default()
        },
    }
}

// The line of a step at the front of the output, or LENGTH, FILE, PROGRAM, END, OUT, UNKNOWN or UNDEFINED.
#[unsafe(no_mangle)]
pub extern "C" fn ln_write_line<'a>(
    out: &mut [u8],
    k: usize,
    facts: u8,
    z: &'a [u8],
    p: &'a [u8],
    program: &[u8],
    position: usize,
    number: u64,
) -> LnAnswer
    ensures { LineWritten k (facts_of facts) (state z.now p.now) program.now position number
        out.old out.new (answer_in result) }
{
    let core = core_of(k, facts);
    let length = lines::write_line(out, core, z, p, program, position, number);
    LnAnswer::from(length.map(|length| length as u64))
}

// A fresh journal of the version told and of the lent size, whatever the bytes that are lent; or LENGTH, ROOM or JOURNAL.
#[unsafe(no_mangle)]
pub extern "C" fn ln_fresh(k: usize, version: u64, journal: &mut [u8]) -> u64
    ensures { Freshened k version journal.old result journal.new }
{
    machine::answered(journal::fresh(k, version as usize, journal)) as u64
}

// Executes the word at the position on a core and appends its entry, or LENGTH, FILE, PROGRAM, ROOM, JOURNAL, END, UNKNOWN, UNDEFINED, JOURNAL
// where the word writes a predicate and the journal is of the former version, or FULL.
#[unsafe(no_mangle)]
pub extern "C" fn ln_step(
    k: usize,
    facts: u8,
    z: &mut [u8],
    p: &mut [u8],
    program: &[u8],
    journal: &mut [u8],
) -> u64
    ensures { Stepped (core_of k (facts_of facts)) program.now (buffers_of (state z.old p.old) journal.old) result
        (buffers_of (state z.new p.new) journal.new) }
{
    let core = core_of(k, facts);
    machine::answered(steps::step(core, z, p, program, journal)) as u64
}

// Takes the last step back, or LENGTH, FILE, ROOM, JOURNAL or EMPTY.
#[unsafe(no_mangle)]
pub extern "C" fn ln_back(k: usize, z: &mut [u8], p: &mut [u8], journal: &mut [u8]) -> u64
    ensures { Backed k (buffers_of (state z.old p.old) journal.old)
        result (buffers_of (state z.new p.new) journal.new) }
{
    machine::answered(steps::back(k, z, p, journal)) as u64
}

// A journal's position, or LENGTH, ROOM or JOURNAL.
#[unsafe(no_mangle)]
pub extern "C" fn ln_position(k: usize, journal: &[u8]) -> LnAnswer
    ensures { PositionTold k journal.now result }
{
    let position = journal::position(k, journal);
    LnAnswer::from(position.map(|position| position as u64))
}
