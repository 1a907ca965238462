// The step-back journal: a fresh one, its position, an entry that it holds, and whether a step or a step back is refused.
#![tactic(auto)]

ghost use Rattle.std.specs.Prelude.{◌≡◌, IfOk};
ghost use Rattle.machine.specs.Refusal.{answered, answer_of, refused};
ghost use Rattle.registers.specs.State.{state};
ghost use Rattle.journal.specs.Left.{buffers_of};
ghost use Rattle.journal.specs.Calls.{fresh_tests, start_refused, back_refused, position_refused, position_answer, Freshened};
ghost use Rattle.journal.specs.Calls.{entry_refused, entry_answer, held_in};

use machine::{Length, Refusal};

// The length of a fresh journal of the version told, by the size of what is lent; or LENGTH, ROOM or JOURNAL.
fn check_fresh(k: usize, version: usize, journal: &[u8]) -> Result<Length, Refusal>
    ensures number { answered result ≡ refused (fresh_tests k version journal.now) }
    ensures units { IfOk result (λ length. length.units ≡ k) }
{
    let k = Length::new(k)?;
    entries::check_room_for(version, journal.len())?;
    entries::check_version(version)?;
    Ok(k)
}

// Writes a fresh journal of the version told, whatever the bytes that are lent; or LENGTH, ROOM or JOURNAL, and the journal as it stood.
#[tactic(auto, unfolding(crate::specs::Calls::freshened))]
pub fn fresh(k: usize, version: usize, journal: &mut [u8]) -> Result<(), Refusal>
    ensures { Freshened k version journal.old (answered result) journal.new }
{
    let k = check_fresh(k, version, journal)?;
    appends::put_fresh(k, version, journal);
    Ok(())
}

// The length of a step back; or LENGTH, FILE, ROOM, JOURNAL or EMPTY.
#[tactic(auto, unfolding(crate::specs::Calls::back_refused))]
pub fn check_back(k: usize, z: &[u8], p: &[u8], journal: &[u8]) -> Result<Length, Refusal>
    ensures number { answered result ≡ back_refused k (buffers_of (state z.now p.now) journal.now) }
    ensures units { IfOk result (λ length. length.units ≡ k) }
{
    let k = machine::check_files(k, z, p)?;
    entries::check_journal(k, journal)?;
    if entries::held_of(journal) == 0 {
        return Err(Refusal::Empty);
    }
    Ok(k)
}

// The length of a step, before its word is read; or LENGTH, FILE, PROGRAM, ROOM, JOURNAL or END. Its frame is gone when the word is
// carried out, so that a step takes less of the stack.
#[tactic(auto, unfolding(crate::specs::Calls::start_refused))]
#[inline(never)]
pub fn check_step(
    k: usize,
    z: &[u8],
    p: &[u8],
    program: &[u8],
    journal: &[u8],
) -> Result<Length, Refusal>
    ensures number { answered result ≡ start_refused k program.now (buffers_of (state z.now p.now) journal.now) }
    ensures units { IfOk result (λ length. length.units ≡ k) }
{
    let k = machine::check_files(k, z, p)?;
    machine::check_program(program)?;
    entries::check_journal(k, journal)?;
    if program.len() / Length::WORD_BYTES <= entries::position_of(journal) {
        return Err(Refusal::End);
    }
    Ok(k)
}

// The length of a journal whose position is told; or LENGTH, ROOM or JOURNAL.
#[tactic(auto, unfolding(crate::specs::Calls::position_refused))]
fn check_position(k: usize, journal: &[u8]) -> Result<Length, Refusal>
    ensures number { answered result ≡ position_refused k journal.now }
    ensures units { IfOk result (λ length. length.units ≡ k) }
{
    let length = Length::new(k)?;
    entries::check_journal(length, journal)?;
    Ok(length)
}

// A journal's position; or LENGTH, ROOM or JOURNAL.
pub fn position(k: usize, journal: &[u8]) -> Result<usize, Refusal>
    ensures { answer_of result ≡ position_answer k journal.now }
{
    check_position(k, journal)?;
    Ok(entries::position_of(journal))
}

// What is found of a held entry: its register's number, where that register's old bytes start in the journal, and how many they are.
#[derive(Clone, Copy)]
pub struct FoundEntry {
    pub target: usize,
    pub start: usize,
    pub bytes: usize,
}

// The length of a journal whose entry is asked for; or LENGTH, ROOM, JOURNAL or RANGE.
#[tactic(auto, using(crate::proofs::Accepted::position_accepted), unfolding(crate::specs::Calls::entry_refused, crate::specs::Calls::position_refused))]
fn check_entry(k: usize, journal: &[u8], i: usize) -> Result<Length, Refusal>
    ensures number { answered result ≡ entry_refused k journal.now i }
    ensures units { IfOk result (λ length. length.units ≡ k) }
{
    let k = check_position(k, journal)?;
    if entries::held_of(journal) <= i {
        return Err(Refusal::Range);
    }
    Ok(k)
}

// What is found of the held entry i, the oldest being 0; or LENGTH, ROOM, JOURNAL or RANGE.
#[tactic(auto, using(crate::proofs::Accepted::entry_accepted, crate::proofs::Accepted::entry_placed_in, crate::proofs::Accepted::entry_within))]
pub fn read_entry(k: usize, journal: &[u8], i: usize) -> Result<FoundEntry, Refusal>
    ensures { held_in result ≡ entry_answer k journal.now i }
{
    let k = check_entry(k, journal, i)?;
    let at = entries::entry_at(k, journal, i);
    let start = at + 1;
    let target = journal[at] as usize;
    let kind = registers::kind_numbered(target);
    Ok(FoundEntry {
        target,
        start,
        bytes: registers::register_bytes(k, kind),
    })
}
