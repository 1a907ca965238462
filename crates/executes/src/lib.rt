// What each word does to its destination register: of a vector its low bytes are made and written, or every lane in place; a predicate is made.
#![tactic(auto)]

ghost use Rattle.std.specs.Prelude.{◌≡◌, ◌≤◌, ◌<◌};
ghost use Rattle.machine.specs.Size.{sizes, predicate_bytes};
ghost use Rattle.registers.specs.Register.{with_register, InFile};
ghost use Rattle.registers.specs.declared.Kind.TheVariants.{Predicate};
ghost use Rattle.registers.specs.State.{state};
ghost use Rattle.rows.specs.Table.{family_of};
ghost use Rattle.made.specs.Made.{made_bytes};
ghost use Rattle.meaning.specs.Execute.{kind_written, lane_count, lanes_made, executed};
ghost use Rattle.meaning.specs.Needs.{Executable};

use machine::Length;
use registers::Kind;
use rows::{Family, MadeFamily};
use words::Fields;

// The kind of register that a family writes.
fn kind_of(family: Family) -> Kind
    ensures { result ≡ kind_written family }
{
    match family {
        Family::Low(_) | Family::Wide(_) => Kind::Vector,
        Family::Made(_) => Kind::Predicate,
    }
}

// The kind of register that the words of the row at a place write.
pub fn kind_written(row: usize) -> Kind
    ensures { result ≡ kind_written (family_of row) }
{
    kind_of(rows::family_of(row))
}

// How many of so many lanes a word of a family makes active: as its pattern names, or none.
fn lanes_made(made: MadeFamily, pattern: usize, count: usize) -> usize
    ensures { result ≡ lanes_made made pattern count }
{
    match made {
        MadeFamily::Patterned => patterns::pattern_lanes(pattern, count),
        MadeFamily::Cleared => 0,
    }
}

// How many lanes a word makes active, of those that a vector has.
fn lanes_for(made: MadeFamily, f: Fields, k: Length) -> usize
    requires { f.size < sizes }
    ensures { result ≡ lanes_made made f.pattern (lane_count f k.units) }
{
    let count = registers::register_bytes(k, Kind::Vector) / lanes::width_of(f.size);
    lanes_made(made, f.pattern, count)
}

// Makes predicate register d: its bytes are lent on from the middle of the predicate file, and only they are written.
fn make(k: Length, p: &mut [u8], d: usize, size: usize, lanes: usize)
    requires { InFile k.units Predicate d p.old × (size < sizes) }
    ensures { p.new ≡ with_register k.units Predicate d (made_bytes (predicate_bytes k.units) size lanes) p.old }
{
    let at = registers::register_at(k, Kind::Predicate, d);
    let end = at + registers::register_bytes(k, Kind::Predicate);
    made::put_made(&mut p[at..end], size, lanes);
}

// Executes a word: its destination's bytes become what its form says, from the registers as they were.
pub fn execute(f: Fields, k: Length, z: &mut [u8], p: &mut [u8])
    requires { Executable f k.units (state z.old p.old) }
    ensures { state z.new p.new ≡ executed f k.units (state z.old p.old) }
{
    let form = rows::form_of(f.row);
    match form.family {
        Family::Low(low) => {
            let bytes = reduces::low_bytes(low, form.parameters, f, k, z, p);
            registers::write_register(k, Kind::Vector, z, f.d, &bytes);
        }
        Family::Wide(wide) => widens::write_lanes(wide, form.parameters, f, k, z, p),
        Family::Made(made) => make(k, p, f.d, f.size, lanes_for(made, f, k)),
    }
}
