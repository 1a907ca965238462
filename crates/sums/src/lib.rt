// Sums of a register's lanes: the active lanes in order, every lane in order, a range split at its middle; and the panel of segments.
#![tactic(auto)]

ghost use Rattle.std.specs.Prelude.{◌≡◌, ℕ, ◌+◌, ◌≤◌, ◌<◌, ℤ};
ghost use Rattle.lanes.specs.Integer.{residue};
ghost use Rattle.lanes.specs.Sum.{each, element, active_element, total};
ghost use Rattle.sums.specs.Sums.{lane_sum, EveryLane, GovernedLane, GovernedRange};
ghost use Rattle.sums.specs.Panel.{panel_row, panel_of, GovernedSegments, GovernedSegment};

use machine::Length;

// What lane e adds: its number extended to 64 bits if it is active, else 0.
pub fn lane_value(register: &[u8], predicate: &[u8], w: usize, signed: bool, e: usize) -> u64
    requires { GovernedLane w e predicate.now register.now }
    ensures { result ≡ residue 64 (active_element signed w predicate.now register.now e) }
{
    let number = lanes::element_at(register, w, signed, e);
    if lanes::is_active(predicate, w, e) {
        number
    } else {
        0
    }
}

// The sum of what each number below count adds, in order, modulo 2^64.
fn sum_below<F: Fn(usize) -> u64>(count: usize, adds: F) -> u64
    requires { (e : ℕ) → e < count → F.pre adds e }
    ensures { (f : ℕ → ℤ) → ((e n : ℕ) → e < count → F.post adds e n → n ≡ residue 64 (f e)) → result ≡ residue 64 (total (each f 0 count)) }
{
    let mut sum: u64 = 0;
    for e in 0..count {
        sum = sum.wrapping_add(adds(e));
    }
    sum
}

// The sum of the active lanes below count, lane by lane, modulo 2^64.
fn sum_run(register: &[u8], predicate: &[u8], w: usize, signed: bool, count: usize) -> u64
    requires { GovernedRange w 0 count predicate.now register.now }
    ensures { result ≡ lane_sum signed w 0 count predicate.now register.now }
{
    sum_below(count, |e| lane_value(register, predicate, w, signed, e))
}

// The sum of the active lanes below count, lane by lane, modulo 2^64. The widths of lanes are told apart, so that each is summed by code of
// its own.
pub fn sum_lanes(register: &[u8], predicate: &[u8], w: usize, signed: bool, count: usize) -> u64
    requires { GovernedRange w 0 count predicate.now register.now }
    ensures { result ≡ lane_sum signed w 0 count predicate.now register.now }
{
    match w {
        1 => sum_run(register, predicate, 1, signed, count),
        2 => sum_run(register, predicate, 2, signed, count),
        4 => sum_run(register, predicate, 4, signed, count),
        8 => sum_run(register, predicate, 8, signed, count),
        _ => sum_run(register, predicate, w, signed, count),
    }
}

// The sum of every lane below count, lane by lane, modulo 2^64.
fn every_run(register: &[u8], w: usize, signed: bool, count: usize) -> u64
    requires { EveryLane w count register.now }
    ensures { result ≡ residue 64 (total (each (element signed w register.now) 0 count)) }
{
    sum_below(count, |e| lanes::element_at(register, w, signed, e))
}

// The sum of every lane below count, modulo 2^64; the widths of lanes are told apart, as for active lanes.
pub fn sum_every(register: &[u8], w: usize, signed: bool, count: usize) -> u64
    requires { EveryLane w count register.now }
    ensures { result ≡ residue 64 (total (each (element signed w register.now) 0 count)) }
{
    match w {
        1 => every_run(register, 1, signed, count),
        2 => every_run(register, 2, signed, count),
        4 => every_run(register, 4, signed, count),
        _ => every_run(register, w, signed, count),
    }
}

// The sum of the active lanes of a range of at most two, modulo 2^64, each lane read where it stands.
fn sum_few(register: &[u8], predicate: &[u8], w: usize, signed: bool, a: usize, b: usize) -> u64
    requires { GovernedRange w a b predicate.now register.now × (b ≤ a + 2) }
    ensures { result ≡ lane_sum signed w a b predicate.now register.now }
{
    if a == b {
        return 0;
    }
    let first = lane_value(register, predicate, w, signed, a);
    if b - a == 1 {
        return first;
    }
    let second = lane_value(register, predicate, w, signed, a + 1);
    first.wrapping_add(second)
}

// The sum of the active lanes from a up to but without b, modulo 2^64: the range is split at its middle and each half summed the same
// way, down to single lanes.
pub fn sum_between(
    register: &[u8],
    predicate: &[u8],
    w: usize,
    signed: bool,
    a: usize,
    b: usize,
) -> u64
    requires { GovernedRange w a b predicate.now register.now }
    ensures { result ≡ lane_sum signed w a b predicate.now register.now }
{
    if b - a <= 2 {
        return sum_few(register, predicate, w, signed, a, b);
    }
    let middle = a + (b - a) / 2;
    let low = sum_between(register, predicate, w, signed, a, middle);
    let high = sum_between(register, predicate, w, signed, middle, b);
    low.wrapping_add(high)
}

// Segment s of a register with its inactive lanes zeroed.
fn panel_row(register: &[u8], predicate: &[u8], w: usize, s: usize) -> [u8; 16]
    requires { GovernedSegment w s predicate.now register.now }
    ensures { result ≡ panel_row w predicate.now register.now s }
{
    let count = Length::SEGMENT_BYTES / w;
    let first = s * count;
    let mut row = [0u8; 16];
    for e in 0..count {
        let n = lane_value(register, predicate, w, false, first + e);
        lanes::put_lane(&mut row, w, e, n);
    }
    row
}

// The panel of a register: row s is segment s, and rows past the register's end are zero.
pub fn panel_of(register: &[u8], predicate: &[u8], w: usize) -> [[u8; 16]; 16]
    requires { GovernedSegments w predicate.now register.now }
    ensures { result ≡ panel_of w predicate.now register.now }
{
    let count = register.len() / Length::SEGMENT_BYTES;
    let mut rows = [[0u8; 16]; 16];
    for s in 0..count {
        rows[s] = panel_row(register, predicate, w, s);
    }
    rows
}
