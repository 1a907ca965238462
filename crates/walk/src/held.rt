// A caller that keeps the contract of the walk: its input's bytes are known, and it promises from the contract alone what comes behind what was
// written before. The program itself reads a stream of which nothing is known beforehand, and does not call it.
ghost use Rattle.std.specs.Prelude.{OnOk};
ghost use Rattle.std.specs.Io.KnownBytes.{Appends};
ghost use Rattle.walks.specs.Output.{output_of};

use std::io;
use std::io::Write;

// The walk of some bytes.
pub(crate) fn held_walk<W: Write>(input: &[u8], writer: &mut W) -> io::Result<()>
    ensures { OnOk result (Appends (W.contents writer.old) (W.contents writer.new) (output_of input.now)) }
{
    let mut reader = input;
    crate::walk(&mut reader, writer)
}
