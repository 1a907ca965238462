// What a word decodes to on a core: a row's need comes above its match and its sizes.
#![tactic(auto)]

ghost use Rattle.std.specs.Prelude.{◌≡◌, ◌<◌};
ghost use Rattle.rows.specs.Table.{rows};
ghost use Rattle.words.specs.Decode.{decoding};
ghost use Rattle.cores.specs.Need.{has, need_of};
ghost use Rattle.cores.specs.Core.{granted, decoded_on};

use facts::Facts;
use machine::Refusal;
use words::Fields;

// The places of the rows that need something else than the widening and pairwise ones.
const SADDV: usize = 0;

const UADDV: usize = 1;

const ADDQV: usize = 2;

const SADDLV: usize = 3;

const UADDLV: usize = 4;

const PTRUE: usize = 23;

const PFALSE: usize = 24;

// What a row needs of a core.
#[derive(Clone, Copy)]
pub enum Need {
    Nothing,
    SveOrSme,
    Sve2OrSme,
    Sve2p1OrSme2p1,
}

// Whether a core has what is needed.
fn has(facts: Facts, need: Need) -> bool
    ensures { result ≡ has facts need }
{
    match need {
        Need::Nothing => true,
        Need::SveOrSme => facts.sve || facts.sme,
        Need::Sve2OrSme => facts.sve2 || facts.sme,
        Need::Sve2p1OrSme2p1 => facts.sve2p1 || facts.sme2p1,
    }
}

// What the row at a place needs.
pub fn need_of(row: usize) -> Need
    requires { row < rows }
    ensures { result ≡ need_of row }
{
    match row {
        SADDV | UADDV | PTRUE | PFALSE => Need::SveOrSme,
        ADDQV => Need::Sve2p1OrSme2p1,
        SADDLV | UADDLV => Need::Nothing,
        _ => Need::Sve2OrSme,
    }
}

// A word with these fields where the core has what its row needs; else UNDEFINED.
fn grant(facts: Facts, fields: Fields) -> Result<Fields, Refusal>
    requires { fields.row < rows }
    ensures { result ≡ decoding (granted facts fields) }
{
    if has(facts, need_of(fields.row)) {
        Ok(fields)
    } else {
        Err(Refusal::Undefined)
    }
}

// The fields that a word decodes to on a core with these facts; or UNKNOWN or UNDEFINED.
pub fn decode(word: u32, facts: Facts) -> Result<Fields, Refusal>
    ensures { result ≡ decoding (decoded_on facts word) }
{
    grant(facts, words::decode(word)?)
}
