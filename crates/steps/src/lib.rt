// A step, which appends an entry and executes its word, and back, which takes the last entry off again.
#![tactic(auto)]

ghost use Rattle.std.specs.Prelude.{◌≡◌};
ghost use Rattle.machine.specs.Refusal.{answered};
ghost use Rattle.registers.specs.State.{state};
ghost use Rattle.journal.specs.Left.{core_of, buffers_of};
ghost use Rattle.steps.specs.Calls.{carried_out, Stepped, Backed, Performed};
ghost use Rattle.steps.specs.Needs.{Ready, CarryOut};

use facts::Core;
use machine::{Length, Refusal};
use registers::Kind;
use registers::files::Files;
use words::Fields;

// Appends the entry of the register that a word writes, whose kind is told, and executes the word.
fn carry_out(k: Length, kind: Kind, z: &mut [u8], p: &mut [u8], journal: &mut [u8], f: Fields)
    requires { CarryOut k.units kind f (buffers_of (state z.old p.old) journal.old) }
    ensures { buffers_of (state z.new p.new) journal.new
        ≡ carried_out k.units f (buffers_of (state z.old p.old) journal.old) }
{
    let files = Files { k, z, p };
    appends::append(k, kind, files.file(kind), journal, f.d);
    executes::execute(f, k, z, p);
}

// Executes the word at the position and appends its entry; or JOURNAL where no entry may name what it writes, or FULL, and all as it stood.
// Its frame stands apart from its caller's, so that decoding does not lie on top of it: a step takes less of the stack.
#[inline(never)]
fn perform(
    k: Length,
    z: &mut [u8],
    p: &mut [u8],
    journal: &mut [u8],
    f: Fields,
) -> Result<(), Refusal>
    requires { Ready k.units f (buffers_of (state z.old p.old) journal.old) }
    ensures { Performed k.units f (buffers_of (state z.old p.old) journal.old) (answered result)
        (buffers_of (state z.new p.new) journal.new) }
{
    let kind = executes::kind_written(f.row);
    if !entries::may_name(journal, registers::entry_number(kind, f.d)) {
        return Err(Refusal::Journal);
    }
    if entries::is_full(k, journal) {
        return Err(Refusal::Full);
    }
    carry_out(k, kind, z, p, journal, f);
    Ok(())
}

// Executes the word at the position on a core with these facts, appends its entry and raises the count; or a refusal, and all as it stood.
pub fn step(
    core: Core,
    z: &mut [u8],
    p: &mut [u8],
    program: &[u8],
    journal: &mut [u8],
) -> Result<(), Refusal>
    ensures { Stepped (core_of core.k core.facts) program.now (buffers_of (state z.old p.old) journal.old) (answered result)
        (buffers_of (state z.new p.new) journal.new) }
{
    let k = journal::check_step(core.k, z, p, program, journal)?;
    let word = programs::word_at(program, entries::position_of(journal));
    let f = cores::decode(word, core.facts)?;
    perform(k, z, p, journal, f)
}

// Takes the last step back; or a refusal, and all as it stood.
pub fn back(k: usize, z: &mut [u8], p: &mut [u8], journal: &mut [u8]) -> Result<(), Refusal>
    ensures { Backed k (buffers_of (state z.old p.old) journal.old) (answered result)
        (buffers_of (state z.new p.new) journal.new) }
{
    let k = journal::check_back(k, z, p, journal)?;
    appends::take_back(k, z, p, journal);
    Ok(())
}
