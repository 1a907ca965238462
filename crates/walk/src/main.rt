// Reads a session from standard input and writes its walk to standard output: a line for each step until one is refused.
#![tactic(auto)]

ghost use Rattle.std.specs.Prelude.{◌≤◌, ◌<◌, length, take, IfOk, OnOk, OnErr, IfSome};
ghost use Rattle.std.specs.Io.KnownBytes.{Consumes, Appends, IsAtEnd};
ghost use Rattle.walk.specs.Counts.{IsPrefixLen, TakenInFront};
ghost use Rattle.digits.specs.Put.{Put};
ghost use Rattle.session.specs.Layout.{most_session};
ghost use Rattle.walks.specs.Output.{output_of, most_output};

use std::io;
use std::io::{Read, Write};

mod held;

// Reads the input into room that the longest session does not fill, so that a longer input is seen and refused.
fn read_input<R: Read>(reader: &mut R, input: &mut [u8]) -> io::Result<usize>
    requires { most_session < length input.old }
    ensures prefix_len { IfOk result (λ count. IsPrefixLen count input.new) }
    ensures bytes { IfOk result (λ count. Consumes (R.remaining reader.old) (R.remaining reader.new) (take count input.new)) }
    ensures whole { IfOk result (λ count. count < length input.new → IsAtEnd (R.remaining reader.new)) }
    ensures err { OnErr result (TakenInFront (R.remaining reader.old) (R.remaining reader.new) input.new) }
{
    let mut count = 0;
    while count < input.len() {
        let more = reader.read(&mut input[count..])?;
        if more == 0 {
            break;
        }
        count += more;
    }
    Ok(count)
}

// Writes the walk of what was read into room for the longest output, and answers its length.
fn write_walk(output: &mut [u8], input: &[u8]) -> usize
    requires { most_output ≤ length output.old }
    ensures put { Put output.old 0 (output_of input.now) output.new result }
    ensures prefix_len { IsPrefixLen result output.new }
{
    walks::write_output(output, input).unwrap_or(0)
}

// Reads a session and writes its walk: of an input that is known, all that is written is known.
fn walk<R: Read, W: Write>(reader: &mut R, writer: &mut W) -> io::Result<()>
    ensures { OnOk result (IfSome (R.remaining reader.old) (λ input. Appends (W.contents writer.old) (W.contents writer.new) (output_of input))) }
{
    let mut input = [0u8; session::MOST_SESSION + 1];
    let count = read_input(reader, &mut input)?;
    let mut output = [0u8; walks::MOST_OUTPUT];
    let length = write_walk(&mut output, &input[..count]);
    writer.write_all(&output[..length])
}

fn main(rt: HostRuntime) -> io::Result<()> {
    walk(&mut rt.reader(), &mut io::writer(&rt))
}
