// Registers in files: how many there are of a kind, how long one is and where it starts; its bytes lent, and written.
#![tactic(auto)]

ghost use Rattle.std.specs.Prelude.{◌≡◌, ◌≤◌, ◌<◌, length};
ghost use Rattle.registers.specs.Register.{register_from, register_count, entry_number, numbered, register_bytes, register_at, register_of};
ghost use Rattle.registers.specs.Register.{with_register, padded, InFile};

use machine::Length;

pub mod files;

// The two kinds of register.
#[derive(Clone, Copy)]
pub enum Kind {
    Vector,
    Predicate,
}

// How many registers of a kind there are.
pub fn register_count(kind: Kind) -> usize
    ensures { result ≡ register_count kind }
{
    match kind {
        Kind::Vector => Length::VECTORS,
        Kind::Predicate => Length::PREDICATES,
    }
}

// The kind of the register that a number names in an entry.
#[tactic(auto, unfolding(crate::specs::Register::numbered))]
pub fn kind_numbered(number: usize) -> Kind
    ensures { result ≡ (numbered number).kind }
{
    if number < Length::VECTORS {
        Kind::Vector
    } else {
        Kind::Predicate
    }
}

// The number, among the registers of its kind, of the register that a number names in an entry.
#[tactic(auto, unfolding(crate::specs::Register::numbered))]
pub fn register_numbered(number: usize) -> usize
    ensures { result ≡ (numbered number).number }
{
    number.checked_sub(Length::VECTORS).unwrap_or(number)
}

// The number that an entry has for register r of a kind.
#[tactic(auto, unfolding(crate::specs::Register::entry_number))]
pub fn entry_number(kind: Kind, r: usize) -> usize
    requires { r < register_count kind }
    ensures { result ≡ entry_number (register_from kind r) }
{
    match kind {
        Kind::Vector => r,
        Kind::Predicate => Length::VECTORS + r,
    }
}

// The bytes of a register of a kind.
pub fn register_bytes(k: Length, kind: Kind) -> usize
    ensures { result ≡ register_bytes k.units kind }
{
    match kind {
        Kind::Vector => k.vector_bytes(),
        Kind::Predicate => k.predicate_bytes(),
    }
}

// Where register r of a kind starts in its file.
pub fn register_at(k: Length, kind: Kind, r: usize) -> usize
    requires { r < register_count kind }
    ensures { result ≡ register_at k.units kind r }
{
    r * register_bytes(k, kind)
}

// The bytes of register r of a kind, lent on from its file.
pub fn register(k: Length, kind: Kind, file: &[u8], r: usize) -> &[u8]
    requires { InFile k.units kind r file.now }
    ensures { result.now ≡ register_of k.units kind r file.now }
{
    let at = register_at(k, kind, r);
    &file[at..at + register_bytes(k, kind)]
}

// Writes bytes at the front of a register and zeros above them.
pub fn write(destination: &mut [u8], source: &[u8])
    requires { length source.now ≤ length destination.old }
    ensures { destination.new ≡ padded (length destination.old) source.now }
{
    let (front, above) = destination.split_at_mut(source.len());
    front.copy_from_slice(source);
    above.fill(0);
}

// Writes bytes at the front of register r of a kind and zeros above them: the register's bytes are lent on from the middle of its
// file, and only they are written.
pub fn write_register(k: Length, kind: Kind, file: &mut [u8], r: usize, source: &[u8])
    requires { InFile k.units kind r file.old × (length source.now ≤ register_bytes k.units kind) }
    ensures { file.new ≡ with_register k.units kind r (padded (register_bytes k.units kind) source.now) file.old }
{
    let at = register_at(k, kind, r);
    write(&mut file[at..at + register_bytes(k, kind)], source);
}
