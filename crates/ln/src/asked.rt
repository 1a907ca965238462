// What a pane asks, in a host's hands: a subtotal, a panel, where a register stands, a lane, a journal's entry, and what a row is.
ghost use Rattle.std.specs.Prelude.{◌≡◌};
ghost use Rattle.totals.specs.Written.{PanelWritten};
ghost use Rattle.ln.specs.Posts.{RegisterPlaced, Subtotalled, LaneRead, EntryRead, RowRead};
ghost use Rattle.ln.specs.Outside.{flag_of, place_for};

use crate::{LnAnswer, LnEntry, LnLane, LnPlace, LnRowAbout};
use registers::Kind;

// The sum of the active lanes from a up to but without b, or LENGTH, FILE or RANGE.
#[unsafe(no_mangle)]
pub extern "C" fn ln_subtotal(
    k: usize,
    z: &[u8],
    p: &[u8],
    source: usize,
    governing: usize,
    size: usize,
    is_signed: u64,
    a: usize,
    b: usize,
) -> LnAnswer
    ensures { Subtotalled k z.now p.now source governing size is_signed a b result }
{
    let signed = is_signed != 0;
    LnAnswer::from(totals::subtotal(k, z, p, source, governing, size, signed, a, b))
}

// The panel's rows one after the other at the front of the output, or LENGTH, FILE, OUT or RANGE.
#[unsafe(no_mangle)]
pub extern "C" fn ln_panel(
    k: usize,
    z: &[u8],
    p: &[u8],
    source: usize,
    governing: usize,
    size: usize,
    out: &mut [u8],
) -> u64
    ensures { PanelWritten k z.now p.now source governing size out.old result out.new }
{
    machine::answered(totals::write_panel(k, z, p, source, governing, size, out)) as u64
}

// Where a register stands, or LENGTH, FILE or RANGE; a flag that is not 0 names a predicate register.
#[unsafe(no_mangle)]
pub extern "C" fn ln_register_place(
    k: usize,
    z: &[u8],
    p: &[u8],
    predicate: u64,
    index: usize,
) -> LnPlace
    ensures { RegisterPlaced k z.now p.now predicate index result }
{
    if predicate == 0 {
        place_of(k, z, p, Kind::Vector, index)
    } else {
        place_of(k, z, p, Kind::Predicate, index)
    }
}

// Where a register of a kind stands.
fn place_of(k: usize, z: &[u8], p: &[u8], kind: Kind, number: usize) -> LnPlace
    ensures { result ≡ place_for k z.now p.now kind number }
{
    match pane::check_register(k, z, p, kind, number) {
        Ok(files) => LnPlace {
            number: machine::DONE as u64,
            predicate: flag_of(kind),
            start: registers::register_at(files.k, kind, number) as u64,
            bytes: registers::register_bytes(files.k, kind) as u64,
        },
        Err(refusal) => LnPlace {
            number: refusal.code() as u64,
            ..LnPlace::default()
        },
    }
}

// The flag of a kind.
fn flag_of(kind: Kind) -> u64
    ensures { result ≡ flag_of kind }
{
    match kind {
        Kind::Vector => 0,
        Kind::Predicate => 1,
    }
}

// A lane of a source under a predicate register, or LENGTH, FILE or RANGE.
#[unsafe(no_mangle)]
pub extern "C" fn ln_read_lane(
    k: usize,
    z: &[u8],
    p: &[u8],
    source: usize,
    predicate: usize,
    size: usize,
    is_signed: u64,
    lane: usize,
) -> LnLane
    ensures { LaneRead k z.now p.now source predicate size is_signed lane result }
{
    match totals::read_lane(k, z, p, source, predicate, size, is_signed != 0, lane) {
        Ok(told) => LnLane {
            number: machine::DONE as u64,
            value: told.value,
            active: u64::from(told.active),
            start: told.start as u64,
            bit: told.bit as u64,
        },
        Err(refusal) => LnLane {
            number: refusal.code() as u64,
            ..LnLane::default()
        },
    }
}

// A journal's entry, the oldest held being 0, or LENGTH, ROOM, JOURNAL or RANGE.
#[unsafe(no_mangle)]
pub extern "C" fn ln_read_entry(k: usize, journal: &[u8], index: usize) -> LnEntry
    ensures { EntryRead k journal.now index result }
{
    match journal::read_entry(k, journal, index) {
        Ok(told) => LnEntry {
            number: machine::DONE as u64,
            target: told.target as u64,
            start: told.start as u64,
            bytes: told.bytes as u64,
        },
        Err(refusal) => LnEntry {
            number: refusal.code() as u64,
            ..LnEntry::default()
        },
    }
}

// What a row is, or RANGE.
#[unsafe(no_mangle)]
pub extern "C" fn ln_read_row(row: usize) -> LnRowAbout
    ensures { RowRead row result }
{
    match about::read_row(row) {
        Ok(told) => {
            let n_bytes = told.n_bytes;
            let m_bytes = told.m_bytes;
            let d_bytes = told.d_bytes;
            LnRowAbout {
                number: machine::DONE as u64,
                is_signed: u64::from(told.signed),
                has_g: u64::from(told.has_g),
                has_m: u64::from(told.has_m),
                has_q: u64::from(told.has_q),
                reads_destination: u64::from(told.reads_destination),
                need: told.need as u64,
                n_bytes,
                m_bytes,
                d_bytes,
                has_n: u64::from(told.has_n),
                has_pattern: u64::from(told.has_pattern),
                writes_predicate: u64::from(told.writes_predicate),
            }
        },
        Err(refusal) => LnRowAbout {
            number: refusal.code() as u64,
            ..LnRowAbout::default()
        },
    }
}
