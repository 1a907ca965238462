// Travel over the same buffers: steps forward and back, one after the other, all on one core.
#![tactic(auto)]

ghost use Rattle.std.specs.Prelude.{◌≡◌, ◌^◌};
ghost use Rattle.machine.specs.Refusal.{answered};
ghost use Rattle.registers.specs.State.{state};
ghost use Rattle.journal.specs.Left.{core_of, buffers_of};
ghost use Rattle.travel.specs.Travel.{counted_for, Gone, Countable, Made};

use facts::Core;
use machine::Refusal;

mod held;

// How many steps of each kind were accepted.
#[derive(Clone, Copy)]
pub struct Travelled {
    pub forward: usize,
    pub back: usize,
}

// The direction of a step back; all others are forward.
pub const BACK: u8 = 0;

// Takes a step by its direction.
fn go(
    core: Core,
    z: &mut [u8],
    p: &mut [u8],
    program: &[u8],
    journal: &mut [u8],
    direction: u8,
) -> Result<(), Refusal>
    ensures { Gone (core_of core.k core.facts) program.now direction (buffers_of (state z.old p.old) journal.old) (answered result)
        (buffers_of (state z.new p.new) journal.new) }
{
    if direction == BACK {
        return steps::back(core.k, z, p, journal);
    }
    steps::step(core, z, p, program, journal)
}

// Counts a step that was accepted.
fn counted(made: Travelled, direction: u8, outcome: Result<(), Refusal>) -> Travelled
    requires { Countable made (2 ^ 64) }
    ensures { result ≡ counted_for direction (answered outcome) made }
{
    if outcome.is_err() {
        return made;
    }
    if direction == BACK {
        return Travelled {
            back: made.back + 1,
            ..made
        };
    }
    Travelled {
        forward: made.forward + 1,
        ..made
    }
}

// Takes steps, one after the other, and answers how many of each kind were accepted.
pub fn travel(
    core: Core,
    z: &mut [u8],
    p: &mut [u8],
    program: &[u8],
    journal: &mut [u8],
    directions: &[u8],
) -> Travelled
    ensures { Made (core_of core.k core.facts) (buffers_of (state z.old p.old) journal.old) program.now directions.now
        (buffers_of (state z.new p.new) journal.new)
        result }
{
    let mut made = Travelled {
        forward: 0,
        back: 0,
    };
    for direction in directions {
        let outcome = go(core, z, p, program, journal, *direction);
        made = counted(made, *direction, outcome);
    }
    made
}
