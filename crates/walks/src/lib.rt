// The whole output of a walk: a session is read and stepped through, and its lines are written at the front of what the caller lends.
#![tactic(auto)]

ghost use Rattle.std.specs.Prelude.{◌≡◌, ◌+◌, ◌≤◌, length};
ghost use Rattle.machine.specs.Size.{most_length, most_words, vector_file};
ghost use Rattle.machine.specs.Refusal.{answer_of};
ghost use Rattle.registers.specs.State.{state};
ghost use Rattle.digits.specs.Put.{Put};
ghost use Rattle.entries.specs.Layout.{most_journal};
ghost use Rattle.journal.specs.Left.{core_of, buffers_of};
ghost use Rattle.session.specs.Body.{session_told};
ghost use Rattle.lines.specs.Line.{most_line};
ghost use Rattle.walks.specs.Output.{lines_from, lines_most, walk_journal, session_lines, OutputWritten, turn_in, Turned, Lent, Given};

use facts::Core;
use machine::{Length, Refusal};
use session::FoundSession;

mod held;

// The bytes of the longest file, which is one of vectors.
const MOST_FILE: usize = Length::VECTORS * Length::MOST_BYTES;

// The bytes of a line for each byte of its step's entry, at most; and those of the longest output: of a full journal's lines, and of
// the step that is then refused.
const LINE_RATE: usize = 4;

pub const MOST_OUTPUT: usize = LINE_RATE * entries::MOST + lines::MOST_LINE;

// Takes the step at a position, and writes its line from a place on: what the step answered, and the place after the line.
fn step_line(
    out: &mut [u8],
    at: usize,
    core: Core,
    z: &mut [u8],
    p: &mut [u8],
    program: &[u8],
    journal: &mut [u8],
    position: usize,
) -> (Result<(), Refusal>, usize)
    requires { at + most_line ≤ length out.old }
    ensures { Turned (core_of core.k core.facts) program.now (buffers_of (state z.old p.old) journal.old) position at out.old (turn_in result.0 result.1)
        (buffers_of (state z.new p.new) journal.new)
        out.new }
{
    let outcome = steps::step(core, z, p, program, journal);
    let number = machine::answered(outcome) as u64;
    let line = &mut out[at..];
    let length = lines::write_line(line, core, z, p, program, position, number).unwrap_or(0);
    (outcome, at + length)
}

// Steps until a step is refused or every word is executed, and writes the lines at the front.
fn write_lines(
    out: &mut [u8],
    core: Core,
    z: &mut [u8],
    p: &mut [u8],
    program: &[u8],
    journal: &mut [u8],
) -> usize
    requires { lines_most core.k journal.old ≤ length out.old }
    ensures { Put out.old 0
        (lines_from most_words (core_of core.k core.facts) program.now 0 (buffers_of (state z.old p.old) journal.old))
        out.new
        result }
{
    let mut at = 0;
    for position in 0..Length::MOST_WORDS {
        let (outcome, end) = step_line(out, at, core, z, p, program, journal, position);
        at = end;
        if outcome.is_err() {
            break;
        }
    }
    at
}

// Room for so many bytes.
fn room<const BYTES: usize>() -> [u8; BYTES]
    ensures { length result ≡ BYTES }
{
    [0; BYTES]
}

// Walks copies of both files with a fresh journal of the current version, and writes the lines at the front.
fn write_walk(out: &mut [u8], core: Core, z: &[u8], p: &[u8], program: &[u8]) -> usize
    requires { Lent core.k z.now p.now out.old }
    ensures { Put out.old 0
        (lines_from most_words (core_of core.k core.facts) program.now 0 (buffers_of (state z.now p.now) (walk_journal core.k)))
        out.new
        result }
{
    let mut journal = room::<{ entries::MOST }>();
    let _ = journal::fresh(core.k, entries::CURRENT_VERSION, &mut journal);
    let mut vectors = room::<MOST_FILE>();
    let vectors_end = z.len();
    parts::overwrite(&mut vectors, 0, z);
    let mut predicates = room::<MOST_FILE>();
    let predicates_end = p.len();
    parts::overwrite(&mut predicates, 0, p);
    write_lines(
        out,
        core,
        &mut vectors[..vectors_end],
        &mut predicates[..predicates_end],
        program,
        &mut journal,
    )
}

// Walks a session on a core with its facts, and writes its lines at the front.
fn write_session(out: &mut [u8], bytes: &[u8], session: FoundSession) -> usize
    requires { Given bytes.now (session_told session) out.old }
    ensures { Put out.old 0 (session_lines (session_told session) bytes.now) out.new result }
{
    let vectors = session.vectors;
    let predicates = session.predicates;
    let program = session.program;
    let end = session.end;
    let core = Core {
        k: session.k,
        facts: session.facts,
    };
    write_walk(
        out,
        core,
        &bytes[vectors..predicates],
        &bytes[predicates..program],
        &bytes[program..end],
    )
}

// Writes the whole output of a walk over some bytes at the front, and answers its length; bytes past it stay. Refused: OUT.
pub fn write_output(out: &mut [u8], bytes: &[u8]) -> Result<usize, Refusal>
    ensures { OutputWritten bytes.now out.old out.new (answer_of result) }
{
    if out.len() < MOST_OUTPUT {
        return Err(Refusal::Out);
    }
    match session::read_session(bytes) {
        Ok(session) => Ok(write_session(out, bytes, session)),
        Err(_) => lines::write_session_refusal(out),
    }
}
