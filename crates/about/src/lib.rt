// What a row is: the sign of its elements, which fields its words have, whether they read their destination, what they need of a core, the
// bytes of the lanes that they read and write, by their size, and whether what they write is a predicate.
#![tactic(auto)]

ghost use Rattle.std.specs.Prelude.{◌≡◌, ◌≤◌, ◌<◌};
ghost use Rattle.machine.specs.Size.{sizes};
ghost use Rattle.about.specs.Widths.{low_bytes, wide_bytes, made_lane_bytes, family_bytes, allows_some, bytes_at, bytes_by_size};
ghost use Rattle.about.specs.About.{need_byte, reads_destination, writes_predicate, about_in, about_answer};

use cores::Need;
use facts::bit;
use machine::Refusal;
use rows::{Family, Form, LowFamily, ROWS, WideFamily};

// What is told of a row.
#[derive(Clone, Copy)]
pub struct FoundRow {
    pub signed: bool,
    pub has_g: bool,
    pub has_m: bool,
    pub has_q: bool,
    pub reads_destination: bool,
    pub need: u8,
    pub n_bytes: [u64; 4],
    pub m_bytes: [u64; 4],
    pub d_bytes: [u64; 4],
    pub has_n: bool,
    pub has_pattern: bool,
    pub writes_predicate: bool,
}

// What a word reads lanes of, or writes.
#[derive(Clone, Copy)]
pub enum Operand {
    First,
    Second,
    Destination,
}

// The bits of the facts of which one is enough; 0 where nothing is needed.
fn need_byte(need: Need) -> u8
    ensures { result ≡ need_byte need }
{
    match need {
        Need::Nothing => 0,
        Need::SveOrSme => bit::SVE + bit::SME,
        Need::Sve2OrSme => bit::SVE2 + bit::SME,
        Need::Sve2p1OrSme2p1 => bit::SVE2P1 + bit::SME2P1,
    }
}

// Whether a family's words read their destination.
fn reads_destination(family: Family) -> bool
    ensures { result ≡ reads_destination family }
{
    matches!(family, Family::Wide(WideFamily::Pairwise))
}

// Whether a family's words write a predicate.
fn writes_predicate(family: Family) -> bool
    ensures { result ≡ writes_predicate family }
{
    matches!(family, Family::Made(_))
}

// The bytes of an operand's lanes, of the families that write the low bytes, with elements of w bytes.
fn low_bytes(low: LowFamily, operand: Operand, w: usize) -> usize
    requires { w ≤ 8 }
    ensures { result ≡ low_bytes low operand w }
{
    match operand {
        Operand::First => w,
        Operand::Second => 0,
        Operand::Destination => match low {
            LowFamily::Reduction => 8,
            LowFamily::Segment => w,
            LowFamily::Long => 2 * w,
        },
    }
}

// The bytes of an operand's lanes, of the families that write every lane, with elements of w bytes.
fn wide_bytes(family: WideFamily, wide: bool, operand: Operand, w: usize) -> usize
    ensures { result ≡ wide_bytes family wide operand w }
{
    match family {
        WideFamily::Pairwise => match operand {
            Operand::First => w / 2,
            Operand::Second => 0,
            Operand::Destination => w,
        },
        WideFamily::Widening => match operand {
            Operand::First => { if wide { w } else { w / 2 } }
            Operand::Second => w / 2,
            Operand::Destination => w,
        },
    }
}

// The bytes of an operand's lanes, of the families that make a predicate, whose bits govern lanes of w bytes.
fn made_lane_bytes(operand: Operand, w: usize) -> usize
    ensures { result ≡ made_lane_bytes operand w }
{
    match operand {
        Operand::First | Operand::Second => 0,
        Operand::Destination => w,
    }
}

// The bytes of an operand's lanes, with elements of w bytes.
fn family_bytes(family: Family, wide: bool, operand: Operand, w: usize) -> usize
    requires { w ≤ 8 }
    ensures { result ≡ family_bytes family wide operand w }
{
    match family {
        Family::Low(low) => low_bytes(low, operand, w),
        Family::Wide(writes) => wide_bytes(writes, wide, operand, w),
        Family::Made(_) => made_lane_bytes(operand, w),
    }
}

// Whether a form allows a size, with some Q.
fn allows_some(form: Form, size: usize) -> bool
    requires { size < sizes }
    ensures { result ≡ allows_some form size }
{
    words::allows_size(form, 0, size) || words::allows_size(form, 1, size)
}

// The bytes of an operand's lanes at a size; 0 where the form does not allow it.
fn bytes_at(form: Form, operand: Operand, size: usize) -> u64
    requires { size < sizes }
    ensures { result ≡ bytes_at form operand size }
{
    if allows_some(form, size) {
        let w = lanes::width_of(size);
        family_bytes(form.family, form.parameters.wide, operand, w) as u64
    } else {
        0
    }
}

// The bytes of an operand's lanes at each of the four sizes.
fn bytes_by_size(form: Form, operand: Operand) -> [u64; 4]
    ensures { result ≡ bytes_by_size form operand }
{
    std::array::from_fn(|size| bytes_at(form, operand, size))
}

// What is told of the row at a place, or RANGE.
pub fn read_row(row: usize) -> Result<FoundRow, Refusal>
    ensures { about_in result ≡ about_answer row }
{
    if ROWS <= row {
        return Err(Refusal::Range);
    }
    let form = rows::form_of(row);
    let family = form.family;
    Ok(FoundRow {
        signed: form.parameters.signed,
        has_g: 0 < words::governing_digits(family),
        has_m: 0 < words::second_digits(family),
        has_q: 0 < words::q_digits(family),
        reads_destination: reads_destination(family),
        need: need_byte(cores::need_of(row)),
        n_bytes: bytes_by_size(form, Operand::First),
        m_bytes: bytes_by_size(form, Operand::Second),
        d_bytes: bytes_by_size(form, Operand::Destination),
        has_n: 0 < words::source_digits(family),
        has_pattern: 0 < words::pattern_digits(family),
        writes_predicate: writes_predicate(family),
    })
}
