// The table: a line for each word, its form, and the row that a word is of.
#![tactic(auto)]

ghost use Rattle.std.specs.Prelude.{◌≡◌, position};
ghost use Rattle.parts.specs.Found.{found};
ghost use Rattle.rows.specs.Table.{table, rows, row_at, matches, row_of, form_with, form_for, form_of, family_of};

// What a family writes: the low bytes of V with zeros above, every lane of Z, or a predicate.
#[derive(Clone, Copy)]
pub enum Family {
    Low(LowFamily),
    Wide(WideFamily),
    Made(MadeFamily),
}

// The families that write the low bytes.
#[derive(Clone, Copy)]
pub enum LowFamily {
    Reduction,
    Segment,
    Long,
}

// The families that write every lane.
#[derive(Clone, Copy)]
pub enum WideFamily {
    Pairwise,
    Widening,
}

// The families that make a predicate: of the lanes that a pattern names, or of none.
#[derive(Clone, Copy)]
pub enum MadeFamily {
    Patterned,
    Cleared,
}

// A row's parameters: whether its elements are signed, whether it takes the top half elements, whether its first source's have the full
// width, and whether its second source's are subtracted.
#[derive(Clone, Copy)]
pub struct Parameters {
    pub signed: bool,
    pub top: bool,
    pub wide: bool,
    pub subtract: bool,
}

// How a row works: its family, and its parameters.
#[derive(Clone, Copy)]
pub struct Form {
    pub family: Family,
    pub parameters: Parameters,
}

// What a row's words do, as the table has it: a family and, of the widening family, sums and differences, long and wide.
#[derive(Clone, Copy)]
pub enum Operation {
    Reduce,
    Segments,
    Across,
    Pairs,
    AddLong,
    SubLong,
    AddWide,
    SubWide,
    Pattern,
    Clear,
}

// A row: name, with a space where it has five letters; mask and value, a word being of it where word AND mask = value; operation; whether
// its elements are signed; and whether they are the odd ones, which are the top halves.
#[derive(Clone, Copy)]
pub struct Row(
    pub [u8; NAME],
    pub u32,
    pub u32,
    pub Operation,
    pub bool,
    pub bool,
);

// The bytes of a name in the table.
pub const NAME: usize = 6;

// The number of rows.
pub const ROWS: usize = 25;

const REDUCE: Operation = Operation::Reduce;

const SEGMENTS: Operation = Operation::Segments;

const ACROSS: Operation = Operation::Across;

const PAIRS: Operation = Operation::Pairs;

const ADD_LONG: Operation = Operation::AddLong;

const SUB_LONG: Operation = Operation::SubLong;

const ADD_WIDE: Operation = Operation::AddWide;

const SUB_WIDE: Operation = Operation::SubWide;

const PATTERN: Operation = Operation::Pattern;

const CLEAR: Operation = Operation::Clear;

// The families, each by a name of its own.
const REDUCTION: Family = Family::Low(LowFamily::Reduction);

const SEGMENT: Family = Family::Low(LowFamily::Segment);

const LONG: Family = Family::Low(LowFamily::Long);

const PAIRWISE: Family = Family::Wide(WideFamily::Pairwise);

const WIDENING: Family = Family::Wide(WideFamily::Widening);

const PATTERNED: Family = Family::Made(MadeFamily::Patterned);

const CLEARED: Family = Family::Made(MadeFamily::Cleared);

// A row's flags by name: its elements' sign, and whether the even or the odd ones are taken.
const SIGNED: bool = true;

const UNSIGNED: bool = false;

const EVEN: bool = false;

const ODD: bool = true;

// The table: a line for each word.
const TABLE: [Row; ROWS] = [
    Row(*b"saddv ", 0xFF3FE000, 0x04002000, REDUCE, SIGNED, EVEN),
    Row(*b"uaddv ", 0xFF3FE000, 0x04012000, REDUCE, UNSIGNED, EVEN),
    Row(*b"addqv ", 0xFF3FE000, 0x04052000, SEGMENTS, UNSIGNED, EVEN),
    Row(*b"saddlv", 0xBF3FFC00, 0x0E303800, ACROSS, SIGNED, EVEN),
    Row(*b"uaddlv", 0xBF3FFC00, 0x2E303800, ACROSS, UNSIGNED, EVEN),
    Row(*b"sadalp", 0xFF3FE000, 0x4404A000, PAIRS, SIGNED, EVEN),
    Row(*b"uadalp", 0xFF3FE000, 0x4405A000, PAIRS, UNSIGNED, EVEN),
    Row(*b"saddlb", 0xFF20FC00, 0x45000000, ADD_LONG, SIGNED, EVEN),
    Row(*b"saddlt", 0xFF20FC00, 0x45000400, ADD_LONG, SIGNED, ODD),
    Row(*b"uaddlb", 0xFF20FC00, 0x45000800, ADD_LONG, UNSIGNED, EVEN),
    Row(*b"uaddlt", 0xFF20FC00, 0x45000C00, ADD_LONG, UNSIGNED, ODD),
    Row(*b"ssublb", 0xFF20FC00, 0x45001000, SUB_LONG, SIGNED, EVEN),
    Row(*b"ssublt", 0xFF20FC00, 0x45001400, SUB_LONG, SIGNED, ODD),
    Row(*b"usublb", 0xFF20FC00, 0x45001800, SUB_LONG, UNSIGNED, EVEN),
    Row(*b"usublt", 0xFF20FC00, 0x45001C00, SUB_LONG, UNSIGNED, ODD),
    Row(*b"saddwb", 0xFF20FC00, 0x45004000, ADD_WIDE, SIGNED, EVEN),
    Row(*b"saddwt", 0xFF20FC00, 0x45004400, ADD_WIDE, SIGNED, ODD),
    Row(*b"uaddwb", 0xFF20FC00, 0x45004800, ADD_WIDE, UNSIGNED, EVEN),
    Row(*b"uaddwt", 0xFF20FC00, 0x45004C00, ADD_WIDE, UNSIGNED, ODD),
    Row(*b"ssubwb", 0xFF20FC00, 0x45005000, SUB_WIDE, SIGNED, EVEN),
    Row(*b"ssubwt", 0xFF20FC00, 0x45005400, SUB_WIDE, SIGNED, ODD),
    Row(*b"usubwb", 0xFF20FC00, 0x45005800, SUB_WIDE, UNSIGNED, EVEN),
    Row(*b"usubwt", 0xFF20FC00, 0x45005C00, SUB_WIDE, UNSIGNED, ODD),
    Row(*b"ptrue ", 0xFF3FFC10, 0x2518E000, PATTERN, UNSIGNED, EVEN),
    Row(*b"pfalse", 0xFFFFFFF0, 0x2518E400, CLEAR, UNSIGNED, EVEN),
];

// What stands past the last row.
const NO_ROW: Row = Row(*b"      ", 0, 0, SEGMENTS, UNSIGNED, EVEN);

// The table, for a caller that looks through its lines.
pub fn table() -> [Row; ROWS]
    ensures { result ≡ table }
{
    TABLE
}

// The row at a place, sought on the way down from the last, so that a compiler sees each place as a constant and lays no table out.
pub fn row_at(i: usize) -> Row
    ensures { result ≡ row_at i }
{
    let lines = table();
    let mut row = NO_ROW;
    for j in (0..ROWS).rev() {
        if i <= j {
            row = lines[j];
        }
    }
    row
}

// The form of a family, by whether it is wide, whether it subtracts, and its elements.
fn form_with(family: Family, wide: bool, subtract: bool, signed: bool, top: bool) -> Form
    ensures { result ≡ form_with family wide subtract signed top }
{
    let parameters = Parameters {
        signed,
        top,
        wide,
        subtract,
    };
    Form { family, parameters }
}

// The form of an operation over elements.
fn form_for(operation: Operation, signed: bool, top: bool) -> Form
    ensures { result ≡ form_for operation signed top }
{
    match operation {
        Operation::Reduce => form_with(REDUCTION, false, false, signed, top),
        Operation::Segments => form_with(SEGMENT, false, false, signed, top),
        Operation::Across => form_with(LONG, false, false, signed, top),
        Operation::Pairs => form_with(PAIRWISE, false, false, signed, top),
        Operation::AddLong => form_with(WIDENING, false, false, signed, top),
        Operation::SubLong => form_with(WIDENING, false, true, signed, top),
        Operation::AddWide => form_with(WIDENING, true, false, signed, top),
        Operation::SubWide => form_with(WIDENING, true, true, signed, top),
        Operation::Pattern => form_with(PATTERNED, false, false, signed, top),
        Operation::Clear => form_with(CLEARED, false, false, signed, top),
    }
}

// The form of the row at a place.
pub fn form_of(i: usize) -> Form
    ensures { result ≡ form_of i }
{
    let Row(_, _, _, operation, signed, top) = row_at(i);
    form_for(operation, signed, top)
}

// The family of the row at a place.
pub fn family_of(i: usize) -> Family
    ensures { result ≡ family_of i }
{
    form_of(i).family
}

// Whether a word is of a row.
fn matches(row: Row, word: u32) -> bool
    ensures { result ≡ matches row word }
{
    word & row.1 == row.2
}

// The place of the first of some rows that matches a word; none where none does.
fn first_match(lines: &[Row], word: u32) -> Option<usize>
    ensures { result ≡ position (λ row. matches row word) lines.now }
{
    lines.iter().position(|row| matches(*row, word))
}

// The place of the row that matches a word; none where none does.
pub fn row_of(word: u32) -> Option<usize>
    ensures { result ≡ found rows (row_of word) }
{
    first_match(&table(), word)
}
