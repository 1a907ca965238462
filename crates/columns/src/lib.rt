// The sums of addqv: a register's segments added one after the other into a row of sixteen bytes, each active lane at its place. No panel is made
// and no part of the register is copied.
#![tactic(auto)]

ghost use Rattle.std.specs.Prelude.{◌≡◌, ◌+◌, ◌*◌, ◌/◌, ◌%◌};
ghost use Rattle.lanes.specs.Lane.{lane as laneAt, with_lane, from_lanes, LaneIn};
ghost use Rattle.sums.specs.Panel.{per_segment, column_sum, GovernedSegments};
ghost use Rattle.columns.specs.Added.{per_half, added_row, GovernedHalf};

use machine::Length;

// The bytes that one byte of a predicate governs: half a segment.
const HALF: usize = Length::SEGMENT_BYTES / Length::SEGMENT_PREDICATE;

// Adds a number to lane e of a row, modulo 2^width.
fn add_lane(row: &mut [u8], w: usize, e: usize, n: u64)
    requires { LaneIn w e row.old }
    ensures { row.new ≡ with_lane w e (laneAt w e row.old + n) row.old }
{
    let old = lanes::lane(row, w, e);
    let sum = old.wrapping_add(n);
    lanes::put_lane(row, w, e, sum);
}

// Adds the lanes of half h of a register to a row, each at its place in a segment. Whether the half is an upper one is a number that a compiler
// does not know, so that the row stays in memory: held in registers, several segments at a time, it would take three times the stack.
fn add_half(row: &mut [u8; 16], register: &[u8], predicate: &[u8], w: usize, h: usize)
    requires { GovernedHalf w h predicate.now register.now × (row.old ≡ added_row w predicate.now register.now (h / 2) (h % 2 * per_half w)) }
    ensures { row.new ≡ added_row w predicate.now register.now (h / 2) (h % 2 * per_half w + per_half w) }
{
    let count = HALF / w;
    let place = h % 2 * count;
    let first = h * count;
    for e in 0..count {
        let n = sums::lane_value(register, predicate, w, false, first + e);
        add_lane(row, w, place + e, n);
    }
}

// The segments of a register added half by half, place by place.
fn add_segments<const W: usize>(register: &[u8], predicate: &[u8]) -> [u8; 16]
    requires { GovernedSegments W predicate.now register.now }
    ensures { result ≡ from_lanes W 0 (per_segment W) (column_sum W predicate.now register.now) }
{
    let count = register.len() / HALF;
    let mut row = [0u8; 16];
    for h in 0..count {
        add_half(&mut row, register, predicate, W, h);
    }
    row
}

// The segments of a register added place by place, modulo 2^width. The widths of lanes are told apart, so that each is added by code of its
// own.
pub fn segment_sums(register: &[u8], predicate: &[u8], w: usize) -> [u8; 16]
    requires { GovernedSegments w predicate.now register.now }
    ensures { result ≡ from_lanes w 0 (per_segment w) (column_sum w predicate.now register.now) }
{
    match w {
        1 => add_segments::<1>(register, predicate),
        2 => add_segments::<2>(register, predicate),
        4 => add_segments::<4>(register, predicate),
        _ => add_segments::<8>(register, predicate),
    }
}
