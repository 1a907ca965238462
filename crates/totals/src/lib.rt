// The calls for one lane, for a panel and for a subtotal: what a pane draws of a sum, for every input.
#![tactic(auto)]

ghost use Rattle.std.specs.Prelude.{◌≡◌, IfOk};
ghost use Rattle.machine.specs.Refusal.{answered, answer_of};
ghost use Rattle.totals.specs.Calls.{panel_refused, panel_answer, subtotal_refused, subtotal_answer};
ghost use Rattle.totals.specs.Lane.{is_lane, lane_refused, lane_in, lane_answer};
ghost use Rattle.totals.specs.Written.{PanelWritten};

use machine::{Length, Refusal};
use registers::Kind;
use registers::files::Files;

// What is told of a lane: its integer at 64 bits, whether it is active, where it starts in the vector file, and its bit of the predicate
// register.
#[derive(Clone, Copy)]
pub struct FoundLane {
    pub value: u64,
    pub active: bool,
    pub start: usize,
    pub bit: usize,
}

// Whether there are such a source register, predicate register, size and lane.
fn is_lane(k: Length, source: usize, predicate: usize, size: usize, e: usize) -> bool
    ensures { result ≡ is_lane k.units source predicate size e }
{
    source < Length::VECTORS
        && predicate < Length::PREDICATES
        && size < Length::SIZES
        && e < k.vector_bytes() / lanes::width_of(size)
}

// The files of a lane; or LENGTH, FILE or RANGE.
#[tactic(auto, unfolding(crate::specs::Lane::lane_refused))]
fn check_lane<'a>(
    k: usize,
    z: &'a [u8],
    p: &'a [u8],
    source: usize,
    predicate: usize,
    size: usize,
    e: usize,
) -> Result<Files<'a>, Refusal>
    ensures number { answered result ≡ lane_refused k z.now p.now source predicate size e }
    ensures files { IfOk result (λ files. (files.k.units ≡ k) × (files.z ≡ z.entry) × (files.p ≡ p.entry)) }
{
    let files = Files::new(k, z, p)?;
    if is_lane(files.k, source, predicate, size, e) {
        Ok(files)
    } else {
        Err(Refusal::Range)
    }
}

// What is told of lane e of a source register under a predicate register; or LENGTH, FILE or RANGE.
#[tactic(auto, unfolding(crate::specs::Lane::lane_refused))]
pub fn read_lane(
    k: usize,
    z: &[u8],
    p: &[u8],
    source: usize,
    predicate: usize,
    size: usize,
    signed: bool,
    e: usize,
) -> Result<FoundLane, Refusal>
    ensures { lane_in result ≡ lane_answer k z.now p.now source predicate size signed e }
{
    let files = check_lane(k, z, p, source, predicate, size, e)?;
    let register = files.register(Kind::Vector, source);
    let governing = files.register(Kind::Predicate, predicate);
    let w = lanes::width_of(size);
    let bit = e * w;
    let start = registers::register_at(files.k, Kind::Vector, source) + bit;
    Ok(FoundLane {
        value: lanes::element_at(register, w, signed, e),
        active: lanes::is_active(governing, w, e),
        start,
        bit,
    })
}

// The files of a panel; or LENGTH, FILE or RANGE.
pub fn check_panel<'a>(
    k: usize,
    z: &'a [u8],
    p: &'a [u8],
    source: usize,
    governing: usize,
    size: usize,
) -> Result<Files<'a>, Refusal>
    ensures number { answered result ≡ panel_refused k z.now p.now source governing size }
    ensures files { IfOk result (λ files. (files.k.units ≡ k) × (files.z ≡ z.entry) × (files.p ≡ p.entry)) }
{
    let files = Files::new(k, z, p)?;
    if source < Length::VECTORS && governing < Length::GOVERNING && size < Length::SIZES {
        Ok(files)
    } else {
        Err(Refusal::Range)
    }
}

// The panel of a source register under a governing predicate; all zeros where it is refused.
#[tactic(auto, unfolding(sums::specs::Panel::no_panel))]
pub fn panel(
    k: usize,
    z: &[u8],
    p: &[u8],
    source: usize,
    governing: usize,
    size: usize,
) -> [[u8; 16]; 16]
    ensures { result ≡ panel_answer k z.now p.now source governing size }
{
    let Ok(files) = check_panel(k, z, p, source, governing, size) else {
        return [[0u8; 16]; 16];
    };
    let register = files.register(Kind::Vector, source);
    let predicate = files.register(Kind::Predicate, governing);
    sums::panel_of(register, predicate, lanes::width_of(size))
}

// The files of a subtotal; or LENGTH, FILE or RANGE.
fn check_subtotal<'a>(
    k: usize,
    z: &'a [u8],
    p: &'a [u8],
    source: usize,
    governing: usize,
    size: usize,
    a: usize,
    b: usize,
) -> Result<Files<'a>, Refusal>
    ensures number { answered result ≡ subtotal_refused k z.now p.now source governing size a b }
    ensures files { IfOk result (λ files. (files.k.units ≡ k) × (files.z ≡ z.entry) × (files.p ≡ p.entry)) }
{
    let files = check_panel(k, z, p, source, governing, size)?;
    if a <= b && b <= files.k.vector_bytes() / lanes::width_of(size) {
        Ok(files)
    } else {
        Err(Refusal::Range)
    }
}

// The sum of a source's active lanes from a up to but without b, modulo 2^64; or LENGTH, FILE or RANGE.
pub fn subtotal(
    k: usize,
    z: &[u8],
    p: &[u8],
    source: usize,
    governing: usize,
    size: usize,
    signed: bool,
    a: usize,
    b: usize,
) -> Result<u64, Refusal>
    ensures { answer_of result ≡ subtotal_answer k z.now p.now source governing size signed a b }
{
    let files = check_subtotal(k, z, p, source, governing, size, a, b)?;
    let register = files.register(Kind::Vector, source);
    let predicate = files.register(Kind::Predicate, governing);
    let w = lanes::width_of(size);
    Ok(sums::sum_between(register, predicate, w, signed, a, b))
}

// The bytes of a panel.
const PANEL_BYTES: usize = Length::MOST * Length::SEGMENT_BYTES;

// The panel's rows one after the other at the front of the output, or LENGTH, FILE, OUT or RANGE.
pub fn write_panel(
    k: usize,
    z: &[u8],
    p: &[u8],
    source: usize,
    governing: usize,
    size: usize,
    out: &mut [u8],
) -> Result<(), Refusal>
    ensures { PanelWritten k z.now p.now source governing size out.old (answered result) out.new }
{
    Files::new(k, z, p)?;
    if out.len() < PANEL_BYTES {
        return Err(Refusal::Out);
    }
    check_panel(k, z, p, source, governing, size)?;
    let rows = panel(k, z, p, source, governing, size);
    parts::overwrite(out, 0, rows.as_flattened());
    Ok(())
}
