// What a core has, as five facts, and the byte that stands for them.
#![tactic(auto)]

ghost use Rattle.std.specs.Prelude.{◌≡◌, ◌<◌};
ghost use Rattle.facts.specs.Facts.{uniform, all_facts, no_facts, has_bit, facts_of, byte_of, Weighed};

pub mod bit;

// What a core has; none of the five implies another.
#[derive(Clone, Copy)]
pub struct Facts {
    pub sve: bool,
    pub sve2: bool,
    pub sve2p1: bool,
    pub sme: bool,
    pub sme2p1: bool,
}

// A core that a host asks of: a vector length of k units, which may be none that there is, and facts.
#[derive(Clone, Copy)]
pub struct Core {
    pub k: usize,
    pub facts: Facts,
}

// The byte of all five.
pub const ALL: u8 = 31;

// A core that has all five facts, or none.
fn uniform(holds: bool) -> Facts
    ensures { result ≡ uniform holds }
{
    Facts {
        sve: holds,
        sve2: holds,
        sve2p1: holds,
        sme: holds,
        sme2p1: holds,
    }
}

// A core that has all five.
pub fn all() -> Facts
    ensures { result ≡ all_facts }
{
    uniform(true)
}

// A core that has none.
pub fn none() -> Facts
    ensures { result ≡ no_facts }
{
    uniform(false)
}

// Whether a bit of a byte is set.
fn has_bit(byte: u8, bit: u8) -> bool
    requires { 0 < bit }
    ensures { result ≡ has_bit byte bit }
{
    byte / bit % 2 == 1
}

// The facts of a byte: its five low bits in their order; higher ones do not matter.
#[tactic(auto, unfolding(crate::specs::Facts::facts_of))]
pub fn facts_of(byte: u8) -> Facts
    ensures { result ≡ facts_of byte }
{
    Facts {
        sve: has_bit(byte, bit::SVE),
        sve2: has_bit(byte, bit::SVE2),
        sve2p1: has_bit(byte, bit::SVE2P1),
        sme: has_bit(byte, bit::SME),
        sme2p1: has_bit(byte, bit::SME2P1),
    }
}

// What a fact adds to a byte: its bit, where it holds.
fn weight_of(holds: bool, bit: u8) -> u8
    ensures { Weighed holds bit result }
{
    u8::from(holds) * bit
}

// The byte of facts.
#[tactic(auto, unfolding(crate::specs::Facts::byte_of))]
pub fn byte_of(facts: Facts) -> u8
    ensures { result ≡ byte_of facts }
{
    let sve = weight_of(facts.sve, bit::SVE);
    let sve2 = weight_of(facts.sve2, bit::SVE2);
    let sve2p1 = weight_of(facts.sve2p1, bit::SVE2P1);
    let sme = weight_of(facts.sme, bit::SME);
    let sme2p1 = weight_of(facts.sme2p1, bit::SME2P1);
    sve + sve2 + sve2p1 + sme + sme2p1
}
