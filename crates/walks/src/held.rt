// A caller that keeps the contract of the whole output: it promises again from the contract alone what the call promises, so a contract that
// is cut down is refused here. No program calls it.
ghost use Rattle.machine.specs.Refusal.{answer_of};
ghost use Rattle.walks.specs.Output.{OutputWritten};

use machine::Refusal;

// The whole output of a walk by the call: the answer and every byte of the output.
pub(crate) fn held_output(out: &mut [u8], bytes: &[u8]) -> Result<usize, Refusal>
    ensures { OutputWritten bytes.now out.old out.new (answer_of result) }
{
    crate::write_output(out, bytes)
}
