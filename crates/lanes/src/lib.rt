// Lanes of a register: a lane's number, its integer at 64 bits, the predicate bit that governs it, and writing a lane.
#![tactic(auto)]

ghost use Rattle.std.specs.Prelude.{◌≡◌, ◌+◌, ◌*◌, ◌<◌, ◌≤◌, length};
ghost use Rattle.machine.specs.Size.{sizes};
ghost use Rattle.lanes.specs.Lane.{lane as laneAt, active, with_lane, width_of, LaneIn, HasBit};
ghost use Rattle.parts.specs.Number.{bits_of};
ghost use Rattle.lanes.specs.Integer.{integer, residue, LaneNumber};
ghost use Rattle.lanes.specs.Sum.{element, ElementIn};

// The bytes of a lane, for each size.
pub fn width_of(size: usize) -> usize
    requires { size < sizes }
    ensures { result ≡ width_of size }
{
    1usize << size
}

// The number that lane e of w bytes holds.
pub fn lane(register: &[u8], w: usize, e: usize) -> u64
    requires { LaneIn w e register.now }
    ensures { result ≡ laneAt w e register.now }
{
    parts::number_at(register, e * w, w)
}

// Whether lane e of w bytes is active: bit e·w of the predicate.
pub fn is_active(predicate: &[u8], w: usize, e: usize) -> bool
    requires { HasBit w e predicate.now }
    ensures { result ≡ active w e predicate.now }
{
    let bit = e * w;
    (predicate[bit / 8] >> (bit % 8)) % 2 == 1
}

// A lane's number extended to 64 bits by its sign: with the top digit turned over, what that digit stands for is taken away again.
#[tactic(auto, using(crate::proofs::Residues::extended_by_turning))]
pub fn extend(n: u64, w: usize, signed: bool) -> u64
    requires { LaneNumber w n }
    ensures { result ≡ residue 64 (integer signed (bits_of w) n) }
{
    if !signed {
        return n;
    }
    let half = 1u64 << (8 * w - 1);
    (n ^ half).wrapping_sub(half)
}

// The integer that element e of w bytes stands for, at 64 bits.
#[tactic(auto, using(crate::proofs::Bytes::lane_lt))]
pub fn element_at(operand: &[u8], w: usize, signed: bool, e: usize) -> u64
    requires { ElementIn w e operand.now }
    ensures { result ≡ residue 64 (element signed w operand.now e) }
{
    extend(lane(operand, w, e), w, signed)
}

// Writes a number's low bytes into lane e of w bytes.
pub fn put_lane(register: &mut [u8], w: usize, e: usize, n: u64)
    requires { e * w + w ≤ length register.old }
    ensures { register.new ≡ with_lane w e n register.old }
{
    parts::put_number(register, e * w, w, n);
}
