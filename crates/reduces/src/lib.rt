// The families that write the low bytes of their destination: reductions, segment sums and sums across a vector.
#![tactic(auto)]

ghost use Rattle.std.specs.Prelude.{◌≡◌, ◌*◌, ◌/◌, ◌≤◌, length};
ghost use Rattle.machine.specs.Size.{segment_bytes};
ghost use Rattle.parts.specs.Number.{bytes_of};
ghost use Rattle.registers.specs.Register.{padded};
ghost use Rattle.registers.specs.State.{state};
ghost use Rattle.lanes.specs.Integer.{residue};
ghost use Rattle.lanes.specs.Sum.{each, element, total};
ghost use Rattle.rows.specs.Table.{form_of};
ghost use Rattle.rows.specs.declared.Family.TheVariants.{Low};
ghost use Rattle.sums.specs.Sums.{Governs, lane_sum};
ghost use Rattle.meaning.specs.Terms.{data_bytes};
ghost use Rattle.meaning.specs.Execute.{written_for};
ghost use Rattle.meaning.specs.Needs.{ExecutableAs};
ghost use Rattle.reduces.specs.Needs.{LongFront};

use machine::Length;
use registers::Kind;
use rows::{LowFamily, Parameters};
use words::Fields;

// A number's low bytes at the front of sixteen, and zeros above them.
fn scalar(width: usize, number: u64) -> [u8; 16]
    requires { width ≤ segment_bytes }
    ensures { result ≡ padded segment_bytes (bytes_of width number) }
{
    let mut low = [0u8; 16];
    lanes::put_lane(&mut low, width, 0, number);
    low
}

// The sum of a register's active lanes, in eight bytes.
fn reduction_low(p: &[u8], n: &[u8], w: usize, signed: bool) -> [u8; 16]
    requires { Governs w p.now n.now }
    ensures { result ≡ padded segment_bytes (bytes_of 8 (lane_sum signed w 0 (length n.now / w) p.now n.now)) }
{
    scalar(8, sums::sum_lanes(n, p, w, signed, n.len() / w))
}

// The sum of all lanes of a register's low 8 bytes, or of its low 16 where q is 1, in twice a lane's bytes.
fn long_low(n: &[u8], w: usize, q: usize, signed: bool) -> [u8; 16]
    requires { LongFront w q n.now }
    ensures { result ≡ padded segment_bytes (bytes_of (2 * w) (residue 64 (total (each (element signed w n.now) 0 (data_bytes q / w))))) }
{
    let bytes = 8 * (1 + q);
    scalar(2 * w, sums::sum_every(n, w, signed, bytes / w))
}

// The low sixteen bytes that a word of such a family leaves in its destination.
pub fn low_bytes(
    low: LowFamily,
    parameters: Parameters,
    f: Fields,
    k: Length,
    z: &[u8],
    p: &[u8],
) -> [u8; 16]
    requires { ExecutableAs (Low low) f k.units (state z.now p.now) × (parameters ≡ (form_of f.row).parameters) }
    ensures { result ≡ padded segment_bytes (written_for f k.units (state z.now p.now)) }
{
    let signed = parameters.signed;
    let w = lanes::width_of(f.size);
    let mask = registers::register(k, Kind::Predicate, p, f.g);
    let source = registers::register(k, Kind::Vector, z, f.n);
    match low {
        LowFamily::Reduction => reduction_low(mask, source, w, signed),
        LowFamily::Segment => columns::segment_sums(source, mask, w),
        LowFamily::Long => long_low(source, w, f.q, signed),
    }
}
