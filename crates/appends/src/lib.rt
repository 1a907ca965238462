// What writes a journal: a fresh one, the entry of a register of either kind appended, and the last entry given up and put back into its register.
#![tactic(auto)]

ghost use Rattle.std.specs.Prelude.{◌≡◌, ◌+◌, ◌≤◌, length, get_or, replicate};
ghost use Rattle.parts.specs.Part.{part, with_part};
ghost use Rattle.registers.specs.Register.{numbered, register_bytes, with_register, padded};
ghost use Rattle.registers.specs.State.{state};
ghost use Rattle.entries.specs.Layout.{count_at, count_bytes, layout_of, with_count, fresh_journal, entry_bytes, encoded_entry, entry_from, pushed};
ghost use Rattle.entries.specs.Restored.{padded_entry, register_entry, restored};
ghost use Rattle.appends.specs.Needs.{PutEntry, Append, Restorable, PutBack, TakeBack, TakenBack};

use machine::Length;
use registers::Kind;

// Writes the count.
fn put_count(journal: &mut [u8], n: usize)
    requires { count_at + count_bytes ≤ length journal.old }
    ensures { journal.new ≡ with_count n journal.old }
{
    parts::put_number(journal, entries::COUNT_AT, entries::COUNT, n as u64);
}

// Writes a fresh journal's bytes, of a version.
pub fn put_fresh(k: Length, version: usize, journal: &mut [u8])
    requires { (layout_of version).header ≤ length journal.old }
    ensures { journal.new ≡ fresh_journal version k.units (length journal.old) }
{
    parts::clear(journal);
    let heading = entries::heading(version, k);
    parts::overwrite(journal, 0, &heading);
}

// Writes an entry at a place: its number, then a register's old bytes, and zeros after those of a predicate.
fn put_entry(k: Length, journal: &mut [u8], at: usize, number: usize, old: &[u8])
    requires { PutEntry k.units at number old.now journal.old }
    ensures { journal.new ≡ with_part at (entry_bytes k.units) (encoded_entry (padded_entry k.units number old.now)) journal.old }
{
    journal[at] = number as u8;
    let start = at + 1;
    let end = at + entries::entry_bytes(k);
    registers::write(&mut journal[start..end], old);
}

// Appends the entry of register r of a kind, whose file is lent, and raises the count.
pub fn append(k: Length, kind: Kind, file: &[u8], journal: &mut [u8], r: usize)
    requires { Append k.units kind r file.now journal.old }
    ensures { journal.new ≡ pushed k.units (register_entry k.units kind r file.now) journal.old }
{
    let i = entries::held_of(journal);
    let at = entries::entry_at(k, journal, i);
    let number = registers::entry_number(kind, r);
    put_entry(
        k,
        journal,
        at,
        number,
        registers::register(k, kind, file, r),
    );
    put_count(journal, i + 1);
}

// Writes the old bytes of the entry at a place into the register of a kind that it names, whose file is lent.
fn restore(k: Length, kind: Kind, file: &mut [u8], journal: &[u8], at: usize)
    requires { Restorable k.units kind at file.old journal.now }
    ensures { file.new ≡ with_register k.units kind (numbered (get_or journal.now at 0)).number
        (part (at + 1) (register_bytes k.units kind) journal.now) file.old }
{
    let r = registers::register_numbered(journal[at] as usize);
    let start = at + 1;
    let end = start + registers::register_bytes(k, kind);
    registers::write_register(k, kind, file, r, &journal[start..end]);
}

// Writes the old bytes of the entry at a place into the register that it names, in the file of its kind.
fn put_back(k: Length, z: &mut [u8], p: &mut [u8], journal: &[u8], at: usize)
    requires { PutBack k.units at (state z.old p.old) journal.now }
    ensures { state z.new p.new ≡ restored k.units (entry_from k.units at journal.now) (state z.old p.old) }
{
    let kind = registers::kind_numbered(journal[at] as usize);
    match kind {
        Kind::Vector => restore(k, Kind::Vector, z, journal, at),
        Kind::Predicate => restore(k, Kind::Predicate, p, journal, at),
    }
}

// Takes the last entry off: its bytes go back into the register that it names, the entry is set to zeros and the count lowered.
pub fn take_back(k: Length, z: &mut [u8], p: &mut [u8], journal: &mut [u8])
    requires { TakeBack k.units (state z.old p.old) journal.old }
    ensures { TakenBack k.units (state z.old p.old) journal.old
        (state z.new p.new) journal.new }
{
    let i = entries::held_of(journal) - 1;
    let at = entries::entry_at(k, journal, i);
    put_back(k, z, p, journal, at);
    parts::clear_part(journal, at, entries::entry_bytes(k));
    put_count(journal, i);
}
