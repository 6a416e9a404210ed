// The program: reads a book from standard input and writes the plan with the fewest banks, or the number of the refusal.
#![tactic(auto)]

ghost use Rattle.std.specs.Prelude.{◌≡◌, ◌≤◌, ◌<◌, length, take, IfOk, OnOk, IfErr, IfSome};
ghost use Rattle.std.specs.Io.KnownBytes.{Appends, Consumes, IsAtEnd, Keeps};
ghost use Rattle.scope.specs.Program.{program_text};
ghost use Rattle.bankplan.specs.Input.{AnswersInput, OnInput};

use std::io::{Read, Write};
use std::{fmt, io};
use text::{Text, program_text};

// What failed, and why.
#[derive(Debug, Drop)]
enum Failure {
    Input(io::Error),
    Output(io::Error),
}

impl fmt::Display for Failure {
    fn fmt<W: fmt::Write>(&self, f: &mut fmt::Formatter<W>) -> fmt::Result {
        match self {
            Failure::Input(e) => write!(f, "standard input: {e}"),
            Failure::Output(e) => write!(f, "standard output: {e}"),
        }
    }
}

// Reads until the input ends, the buffer is full or a read fails, and tells how many bytes were read. Each read says how far it
// came, so this is no walk over a range.
fn read_input<R: Read>(input: &mut R, buf: &mut [u8]) -> io::Result<usize>
    ensures count { IfOk result (λ n. n ≤ length buf.new) }
    ensures room { length buf.new ≡ length buf.old }
    ensures bytes { IfOk result (λ n. Consumes (R.remaining input.old) (R.remaining input.new) (take n buf.new)) }
    ensures end { IfOk result (λ n. n < length buf.new → IsAtEnd (R.remaining input.new)) }
{
    let mut count = 0;
    while count < buf.len() {
        let more = input.read(&mut buf[count..])?;
        if more == 0 {
            break;
        }
        count += more;
    }
    Ok(count)
}

// The text for an input whose first `count` bytes are in the buffer; it may go on where the buffer is full.
fn answer(buf: &[u8], count: usize) -> Text
    requires { (count ≤ length buf.now) × (2065 < length buf.now) }
    ensures { AnswersInput buf.now count result }
{
    program_text(&buf[..count])
}

// Writes the text of the input. One byte more than any book has is enough to tell that the input is too long.
#[tactic(auto, using(crate::proofs::Written::answer_fits, crate::proofs::Written::answer_bytes))]
fn run<R: Read, W: Write>(input: &mut R, output: &mut W) -> Result<(), Failure>
    ensures answers { OnOk result (IfSome (R.remaining input.old) (λ s. Appends (W.contents output.old) (W.contents output.new) (program_text s))) }
    ensures failed { IfErr result (λ f. OnInput f (Keeps (W.contents output.old) (W.contents output.new))) }
{
    let mut buf = [0u8; 2066];
    let count = read_input(input, &mut buf).map_err(Failure::Input)?;
    let text = answer(&buf, count);
    output
        .write_all(&text.bytes[..text.length])
        .map_err(Failure::Output)
}

// Standard error tells what failed; the status is 0 all the same.
fn main(rt: HostRuntime) {
    let ended = run(&mut rt.stdin(), &mut rt.stdout());
    if let Err(failure) = ended {
        let _ = eprintln!(rt; "{failure}");
    }
}
