// The journal's bytes, by the version that they name: mark, version, k and count, then entries of a register's number and its old bytes; what is
// read of them, and whether a journal is well formed.
#![tactic(auto)]

ghost use Rattle.std.specs.Prelude.{◌≡◌, ◌+◌, ◌^◌, ◌≤◌, ◌<◌, length, take};
ghost use Rattle.parts.specs.Part.{same_bytes};
ghost use Rattle.machine.specs.Refusal.{answered, refused};
ghost use Rattle.entries.specs.Layout.{heading as headingOf, is_version, laid_out, layout_of, version_of, header_of, greatest_of, entry_bytes, capacity_for};
ghost use Rattle.entries.specs.Layout.{count_at, count_bytes, slot_at, slot_of, entry_at, held_of, position_of, is_full, is_journal, may_name, are_named, first_entries};
ghost use Rattle.entries.specs.Tests.{room_tests, version_tests, journal_tests};
ghost use Rattle.entries.specs.Needs.{SameLayout, Headed, EntryInside, Fits};

use machine::{Length, Refusal};

// What a version of the journal has: the bytes before its entries, and the greatest number of an entry.
#[derive(Clone, Copy)]
pub struct Layout {
    pub header: usize,
    pub greatest: usize,
}

// The mark, the versions that are defined, and where the version stands and its bytes.
pub const MARK: [u8; 3] = *b"LNJ";

pub const FORMER_VERSION: usize = 1;

pub const CURRENT_VERSION: usize = 2;

pub const VERSION_AT: usize = 3;

pub const VERSION_BYTES: usize = 2;

// Where the count stands, its bytes, the bytes that a journal of any version has, and those of the largest.
pub const COUNT_AT: usize = 6;

pub const COUNT: usize = 2;

pub const LEAST_HEADER: usize = COUNT_AT + COUNT;

pub const MOST: usize = 65536;

// The greatest number of an entry that names a vector, and of one that names a register of either kind.
const LAST_VECTOR: usize = Length::VECTORS - 1;

const LAST_REGISTER: usize = Length::VECTORS + Length::PREDICATES - 1;

// The version that a journal names.
pub fn version_of(journal: &[u8]) -> usize
    requires { count_at + count_bytes ≤ length journal.now }
    ensures { result ≡ version_of journal.now }
{
    parts::number_at(journal, VERSION_AT, VERSION_BYTES) as usize
}

// Whether a version is defined.
pub fn is_version(version: usize) -> bool
    ensures { result ≡ is_version version }
{
    match version {
        FORMER_VERSION | CURRENT_VERSION => true,
        _ => false,
    }
}

// Whether a version that a fresh journal is to have is refused: JOURNAL.
pub fn check_version(version: usize) -> Result<(), Refusal>
    ensures { answered result ≡ refused (version_tests version) }
{
    if is_version(version) {
        Ok(())
    } else {
        Err(Refusal::Journal)
    }
}

// The layout of so many bytes before the entries and of a greatest number.
fn laid_out(header: usize, greatest: usize) -> Layout
    ensures { result ≡ laid_out header greatest }
{
    Layout { header, greatest }
}

// The layout of a version, a line for each.
#[tactic(auto, unfolding(crate::specs::Layout::layout_of))]
pub fn layout_of(version: usize) -> Layout
    ensures { SameLayout result (layout_of version) }
{
    match version {
        FORMER_VERSION => laid_out(LEAST_HEADER, LAST_VECTOR),
        _ => laid_out(LEAST_HEADER, LAST_REGISTER),
    }
}

// The layout of a journal's version.
#[tactic(auto, using(crate::proofs::Versions::header_least))]
fn layout_in(journal: &[u8]) -> Layout
    requires { header_of journal.now ≤ length journal.now }
    ensures { SameLayout result (layout_of (version_of journal.now)) }
{
    layout_of(version_of(journal))
}

// Whether a size for a version is refused: ROOM.
pub fn check_room_for(version: usize, bytes: usize) -> Result<(), Refusal>
    ensures { answered result ≡ refused (room_tests version bytes) }
{
    let layout = layout_of(version);
    if (layout.header..=MOST).contains(&bytes) {
        Ok(())
    } else {
        Err(Refusal::Room)
    }
}

// Whether a journal's size is refused: ROOM.
#[tactic(auto, using(crate::proofs::Versions::header_least))]
pub fn check_room(journal: &[u8]) -> Result<(), Refusal>
    ensures { answered result ≡ refused (room_tests (version_of journal.now) (length journal.now)) }
{
    if journal.len() < LEAST_HEADER {
        return Err(Refusal::Room);
    }
    check_room_for(version_of(journal), journal.len())
}

// The bytes of an entry.
pub fn entry_bytes(k: Length) -> usize
    ensures { result ≡ entry_bytes k.units }
{
    1 + k.vector_bytes()
}

// How many entries so many bytes hold after a header.
pub fn capacity(header: usize, k: Length, bytes: usize) -> usize
    requires { header ≤ bytes }
    ensures { result ≡ capacity_for header k.units bytes }
{
    (bytes - header) / entry_bytes(k)
}

// Where a slot starts after a header.
pub fn slot_at(header: usize, k: Length, slot: usize) -> usize
    requires { slot_at header k.units slot < 2 ^ 64 }
    ensures { result ≡ slot_at header k.units slot }
{
    header + slot * entry_bytes(k)
}

// The slot of a journal's entry i, the oldest being 0.
#[tactic(auto, unfolding(crate::specs::Layout::slot_of))]
pub fn slot_of(k: Length, journal: &[u8], i: usize) -> usize
    requires { EntryInside k.units i journal.now }
    ensures { result ≡ slot_of k.units journal.now i }
{
    let slot = i;
    slot
}

// Where a journal's entry i starts.
#[tactic(auto, using(crate::proofs::Slots::entry_inside))]
pub fn entry_at(k: Length, journal: &[u8], i: usize) -> usize
    requires { EntryInside k.units i journal.now }
    ensures { result ≡ entry_at k.units journal.now i }
{
    let layout = layout_in(journal);
    slot_at(layout.header, k, slot_of(k, journal, i))
}

// How many entries a journal holds: the number in the two bytes of its count.
#[tactic(auto, using(crate::proofs::Versions::header_least), unfolding(crate::specs::Layout::held_of))]
pub fn held_of(journal: &[u8]) -> usize
    requires { header_of journal.now ≤ length journal.now }
    ensures { result ≡ held_of journal.now }
{
    parts::number_at(journal, COUNT_AT, COUNT) as usize
}

// The position: the place of the next step's word.
#[tactic(auto, unfolding(crate::specs::Layout::position_of))]
pub fn position_of(journal: &[u8]) -> usize
    requires { header_of journal.now ≤ length journal.now }
    ensures { result ≡ position_of journal.now }
{
    held_of(journal)
}

// Whether a journal has no room for a further entry.
#[tactic(auto, unfolding(crate::specs::Layout::is_full))]
pub fn is_full(k: Length, journal: &[u8]) -> bool
    requires { Headed k.units journal.now }
    ensures { result ≡ is_full k.units journal.now }
{
    let layout = layout_in(journal);
    capacity(layout.header, k, journal.len()) <= held_of(journal)
}

// Whether an entry of a journal may have a number.
pub fn may_name(journal: &[u8], number: usize) -> bool
    requires { header_of journal.now ≤ length journal.now }
    ensures { result ≡ may_name number journal.now }
{
    let layout = layout_in(journal);
    number <= layout.greatest
}

// What stands before the count: the mark, the version and k.
pub fn heading(version: usize, k: Length) -> [u8; 6]
    ensures { result ≡ headingOf version k.units }
{
    let [low, high, ..] = version.to_le_bytes();
    [MARK[0], MARK[1], MARK[2], low, high, k.units as u8]
}

// Whether mark, version and k agree.
#[tactic(auto, using(crate::proofs::Versions::header_least))]
fn has_heading(k: Length, journal: &[u8]) -> bool
    requires { Headed k.units journal.now }
    ensures { result ≡ same_bytes (take count_at journal.now) (headingOf (version_of journal.now) k.units) }
{
    let heading = heading(version_of(journal), k);
    parts::same_bytes(&journal[..COUNT_AT], &heading)
}

// Whether the first n entries have numbers that entries may have.
#[tactic(auto, using(crate::proofs::Slots::entry_inside, crate::proofs::Places::named_fail, crate::proofs::Places::named_next))]
fn are_named(k: Length, journal: &[u8], n: usize) -> bool
    requires { Fits k.units n journal.now }
    ensures { result ≡ are_named (greatest_of journal.now) (first_entries k.units journal.now n) }
{
    let layout = layout_in(journal);
    for i in 0..n {
        let at = slot_at(layout.header, k, slot_of(k, journal, i));
        if layout.greatest < journal[at] as usize {
            return false;
        }
    }
    true
}

// Whether a journal is well formed.
#[tactic(auto, using(crate::proofs::Versions::header_least), unfolding(crate::specs::Layout::entries_of))]
fn is_journal(k: Length, journal: &[u8]) -> bool
    requires { Headed k.units journal.now }
    ensures { result ≡ is_journal k.units journal.now }
{
    let layout = layout_in(journal);
    let held = held_of(journal);
    is_version(version_of(journal))
        && has_heading(k, journal)
        && held <= Length::MOST_WORDS
        && held <= capacity(layout.header, k, journal.len())
        && are_named(k, journal, held)
}

// Whether a journal is refused: ROOM or JOURNAL.
pub fn check_journal(k: Length, journal: &[u8]) -> Result<(), Refusal>
    ensures { answered result ≡ refused (journal_tests k.units journal.now) }
{
    check_room(journal)?;
    if is_journal(k, journal) {
        Ok(())
    } else {
        Err(Refusal::Journal)
    }
}
