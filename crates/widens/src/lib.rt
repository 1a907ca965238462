// The families that write every lane: pairwise accumulates, and widening sums and differences.
#![tactic(auto)]

ghost use Rattle.std.specs.Prelude.{◌≡◌, ◌+◌, ◌*◌, ◌≤◌};
ghost use Rattle.machine.specs.Size.{vector_bytes};
ghost use Rattle.parts.specs.Number.{with_number};
ghost use Rattle.registers.specs.Register.{register_at, InFile};
ghost use Rattle.registers.specs.declared.Kind.TheVariants.{Vector};
ghost use Rattle.registers.specs.State.{state};
ghost use Rattle.rows.specs.Table.{form_of};
ghost use Rattle.rows.specs.declared.Family.TheVariants.{Wide};
ghost use Rattle.rows.specs.declared.WideFamily.TheVariants.{Pairwise, Widening};
ghost use Rattle.meaning.specs.Execute.{lane_written, executed};
ghost use Rattle.meaning.specs.Needs.{ExecutableAs};
ghost use Rattle.widens.specs.Needs.{WideLanes, WideTurn};

use machine::Length;
use registers::Kind;
use rows::{Parameters, WideFamily};
use words::Fields;

// Writes a number's low bytes to lane e of a register: they are lent on from the middle of the vector file, and only they are written.
fn write_lane(k: Length, z: &mut [u8], d: usize, w: usize, e: usize, number: u64)
    requires { InFile k.units Vector d z.old × (e * w + w ≤ vector_bytes k.units) }
    ensures { z.new ≡ with_number (register_at k.units Vector d + e * w) w number z.old }
{
    let at = registers::register_at(k, Kind::Vector, d) + e * w;
    let end = at + w;
    parts::put_number(&mut z[at..end], 0, w, number);
}

// Writes lane e of a pairwise accumulate, from the registers as they stand.
fn write_pairwise(
    parameters: Parameters,
    w: usize,
    f: Fields,
    k: Length,
    z: &mut [u8],
    p: &[u8],
    e: usize,
)
    requires { WideTurn Pairwise parameters w e f k.units (state z.old p.now) }
    ensures { z.new ≡ lane_written f k.units e (state z.old p.now) }
{
    let mask = registers::register(k, Kind::Predicate, p, f.g);
    let first = registers::register(k, Kind::Vector, z, f.n);
    let old = registers::register(k, Kind::Vector, z, f.d);
    let number = elements::pairwise_lane(mask, first, old, w, parameters.signed, e);
    write_lane(k, z, f.d, w, e, number);
}

// Writes lane e of a widening word, from the registers as they stand.
fn write_widening(
    parameters: Parameters,
    w: usize,
    f: Fields,
    k: Length,
    z: &mut [u8],
    p: &[u8],
    e: usize,
)
    requires { WideTurn Widening parameters w e f k.units (state z.old p.now) }
    ensures { z.new ≡ lane_written f k.units e (state z.old p.now) }
{
    let first = registers::register(k, Kind::Vector, z, f.n);
    let second = registers::register(k, Kind::Vector, z, f.m);
    let number = elements::widening_lane(first, second, w, parameters, e);
    write_lane(k, z, f.d, w, e, number);
}

// Writes lane e of a word, from the registers as they stand.
fn write_turn(
    wide: WideFamily,
    parameters: Parameters,
    w: usize,
    f: Fields,
    k: Length,
    z: &mut [u8],
    p: &[u8],
    e: usize,
)
    requires { WideTurn wide parameters w e f k.units (state z.old p.now) }
    ensures { z.new ≡ lane_written f k.units e (state z.old p.now) }
{
    match wide {
        WideFamily::Pairwise => write_pairwise(parameters, w, f, k, z, p, e),
        WideFamily::Widening => write_widening(parameters, w, f, k, z, p, e),
    }
}

// Writes every lane in place: what a lane is made of lies in the same lane of each register, so no lane that is written is read again. The
// family and the parameters are its own copies, so that a compiler need not look at them in every lane.
fn write_turns(
    wide: WideFamily,
    parameters: Parameters,
    w: usize,
    f: Fields,
    k: Length,
    z: &mut [u8],
    p: &[u8],
)
    requires { WideLanes wide parameters w f k.units (state z.old p.now) }
    ensures { z.new ≡ (executed f k.units (state z.old p.now)).z }
{
    let family = wide;
    let own = Parameters { ..parameters };
    let count = registers::register_bytes(k, Kind::Vector) / w;
    for e in 0..count {
        write_turn(family, own, w, f, k, z, p, e);
    }
}

// Executes a word of such a family. The three widths are told apart, so that the loop over each is code of its own.
pub fn write_lanes(
    wide: WideFamily,
    parameters: Parameters,
    f: Fields,
    k: Length,
    z: &mut [u8],
    p: &[u8],
)
    requires { ExecutableAs (Wide wide) f k.units (state z.old p.now) × (parameters ≡ (form_of f.row).parameters) }
    ensures { z.new ≡ (executed f k.units (state z.old p.now)).z }
{
    let w = lanes::width_of(f.size);
    match wide {
        WideFamily::Pairwise => match w {
            2 => write_turns(WideFamily::Pairwise, parameters, 2, f, k, z, p),
            4 => write_turns(WideFamily::Pairwise, parameters, 4, f, k, z, p),
            _ => write_turns(WideFamily::Pairwise, parameters, 8, f, k, z, p),
        },
        WideFamily::Widening => match w {
            2 => write_turns(WideFamily::Widening, parameters, 2, f, k, z, p),
            4 => write_turns(WideFamily::Widening, parameters, 4, f, k, z, p),
            _ => write_turns(WideFamily::Widening, parameters, 8, f, k, z, p),
        },
    }
}
