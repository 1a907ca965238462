// A caller that keeps the contract of travel: it promises again from the contract alone what the call promises, so a contract that is cut down
// is refused here. No host calls it.
ghost use Rattle.registers.specs.State.{state};
ghost use Rattle.journal.specs.Left.{core_of, buffers_of};
ghost use Rattle.travel.specs.Travel.{Made};

use crate::Travelled;
use facts::Core;

// Travel by the call: the counts, the state and every byte of the journal.
pub(crate) fn held_travel(
    core: Core,
    z: &mut [u8],
    p: &mut [u8],
    program: &[u8],
    journal: &mut [u8],
    directions: &[u8],
) -> Travelled
    ensures { Made (core_of core.k core.facts) (buffers_of (state z.old p.old) journal.old) program.now directions.now
        (buffers_of (state z.new p.new) journal.new)
        result }
{
    crate::travel(core, z, p, program, journal, directions)
}
