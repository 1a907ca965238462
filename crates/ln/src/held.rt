// Callers that keep the contracts of the calls: what a host is promised of the answer and of the lent buffers, a caller here promises again
// from the call's contract alone, so a contract that is cut down is refused here. Each exported call has one, and no host calls them.
ghost use Rattle.registers.specs.State.{state};
ghost use Rattle.facts.specs.Facts.{facts_of};
ghost use Rattle.names.specs.Named.{Named};
ghost use Rattle.assembles.specs.Assembled.{Assembled};
ghost use Rattle.journal.specs.Left.{core_of, buffers_of};
ghost use Rattle.journal.specs.Calls.{Freshened};
ghost use Rattle.steps.specs.Calls.{Stepped, Backed};
ghost use Rattle.lines.specs.Line.{LineWritten};
ghost use Rattle.totals.specs.Written.{PanelWritten};
ghost use Rattle.ln.specs.Posts.{WordDecoded, WordRead, SessionRead, RegisterPlaced, Subtotalled, PositionTold};
ghost use Rattle.ln.specs.Posts.{LaneRead, EntryRead, RowRead, VersionTold};
ghost use Rattle.ln.specs.Outside.{answer_in};

use crate::{LnAnswer, LnEntry, LnFields, LnLane, LnPlace, LnRowAbout, LnSession, LnWord};

// A word decoded by the host's call: the number and every field.
pub(crate) fn held_decode(word: u32, facts: u8) -> LnFields
    ensures { WordDecoded word facts result }
{
    crate::ln_decode(word, facts)
}

// A word named by the host's call: the answer and every byte of the output.
pub(crate) fn held_text(word: u32, facts: u8, out: &mut [u8]) -> LnAnswer
    ensures { Named word (facts_of facts) out.old out.new (answer_in result) }
{
    crate::ln_text(word, facts, out)
}

// A text assembled by the host's call: the number and the word.
pub(crate) fn held_assemble(text: &[u8], facts: u8) -> LnAnswer
    ensures { Assembled text.now (facts_of facts) (answer_in result) }
{
    crate::ln_assemble(text, facts)
}

// A subtotal by the host's call: the number and the sum.
pub(crate) fn held_subtotal(
    k: usize,
    z: &[u8],
    p: &[u8],
    source: usize,
    governing: usize,
    size: usize,
    is_signed: u64,
    a: usize,
    b: usize,
) -> LnAnswer
    ensures { Subtotalled k z.now p.now source governing size is_signed a b result }
{
    crate::asked::ln_subtotal(k, z, p, source, governing, size, is_signed, a, b)
}

// A program's word by the host's call: the number, the word and the place after it.
pub(crate) fn held_read_word(program: &[u8], at: usize) -> LnWord
    ensures { WordRead program.now at result }
{
    crate::ln_read_word(program, at)
}

// A session read by the host's call: the number, every place and the facts.
pub(crate) fn held_read_session(bytes: &[u8]) -> LnSession
    ensures { SessionRead bytes.now result }
{
    crate::ln_read_session(bytes)
}

// A step's line by the host's call: the answer and every byte of the output.
pub(crate) fn held_write_line<'a>(
    out: &mut [u8],
    k: usize,
    facts: u8,
    z: &'a [u8],
    p: &'a [u8],
    program: &[u8],
    position: usize,
    number: u64,
) -> LnAnswer
    ensures { LineWritten k (facts_of facts) (state z.now p.now) program.now position number
        out.old out.new (answer_in result) }
{
    crate::ln_write_line(out, k, facts, z, p, program, position, number)
}

// A fresh journal of the version told by the host's call: the number, and every byte of the journal.
pub(crate) fn held_fresh(k: usize, version: u64, journal: &mut [u8]) -> u64
    ensures { Freshened k version journal.old result journal.new }
{
    crate::ln_fresh(k, version, journal)
}

// A step by the host's call: the number, every byte of both files and every byte of the journal.
pub(crate) fn held_step(
    k: usize,
    facts: u8,
    z: &mut [u8],
    p: &mut [u8],
    program: &[u8],
    journal: &mut [u8],
) -> u64
    ensures { Stepped (core_of k (facts_of facts)) program.now (buffers_of (state z.old p.old) journal.old) result
        (buffers_of (state z.new p.new) journal.new) }
{
    crate::ln_step(k, facts, z, p, program, journal)
}

// A step back by the host's call: the number, every byte of both files and every byte of the journal.
pub(crate) fn held_back(k: usize, z: &mut [u8], p: &mut [u8], journal: &mut [u8]) -> u64
    ensures { Backed k (buffers_of (state z.old p.old) journal.old)
        result (buffers_of (state z.new p.new) journal.new) }
{
    crate::ln_back(k, z, p, journal)
}

// A journal's position by the host's call: the number and the position.
pub(crate) fn held_position(k: usize, journal: &[u8]) -> LnAnswer
    ensures { PositionTold k journal.now result }
{
    crate::ln_position(k, journal)
}

// A register's place by the host's call: the number, the file, the first byte and how many.
pub(crate) fn held_register_place(
    k: usize,
    z: &[u8],
    p: &[u8],
    predicate: u64,
    index: usize,
) -> LnPlace
    ensures { RegisterPlaced k z.now p.now predicate index result }
{
    crate::asked::ln_register_place(k, z, p, predicate, index)
}

// A panel by the host's call: the number and every byte of the output.
pub(crate) fn held_panel(
    k: usize,
    z: &[u8],
    p: &[u8],
    source: usize,
    governing: usize,
    size: usize,
    out: &mut [u8],
) -> u64
    ensures { PanelWritten k z.now p.now source governing size out.old result out.new }
{
    crate::asked::ln_panel(k, z, p, source, governing, size, out)
}

// A lane by the host's call: the number, and all that is told of it.
pub(crate) fn held_read_lane(
    k: usize,
    z: &[u8],
    p: &[u8],
    source: usize,
    predicate: usize,
    size: usize,
    is_signed: u64,
    lane: usize,
) -> LnLane
    ensures { LaneRead k z.now p.now source predicate size is_signed lane result }
{
    crate::asked::ln_read_lane(k, z, p, source, predicate, size, is_signed, lane)
}

// A journal's entry by the host's call: the number, the entry's number, and where the old bytes stand.
pub(crate) fn held_read_entry(k: usize, journal: &[u8], index: usize) -> LnEntry
    ensures { EntryRead k journal.now index result }
{
    crate::asked::ln_read_entry(k, journal, index)
}

// A row by the host's call: the number, and all that is told of it.
pub(crate) fn held_read_row(row: usize) -> LnRowAbout
    ensures { RowRead row result }
{
    crate::asked::ln_read_row(row)
}

// The version by the host's call.
pub(crate) fn held_version() -> u64
    ensures { VersionTold result }
{
    crate::ln_version()
}
