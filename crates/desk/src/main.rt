// The desk program: standard input is a job, and its lines go to standard output. Where a read fails there is no job and no verdict. That, or a write that
// fails, is said on standard error, where nothing else is written. The exit status is 0 then too, but where nothing can be said: the command `desk` at the top makes one of what is said.
#![tactic(auto)]

ghost use Rattle.std.specs.Prelude.{◌≡◌, true, false, IfSome};
ghost use Rattle.std.specs.Io.KnownBytes.{Appends, Keeps};
ghost use Rattle.output.specs.Lines.{printed};

use format::TEXT_BYTES;
use std::io;
use std::io::{Read, Write};
use stream::{ExactPrinter, Served};
use table::MOST_BYTES;

// What the desk prints of a job: its lines.
struct Lines;

impl ExactPrinter for Lines {
    ghost text = { printed };

    ghost room = { 128 };

    fn print(job: &[u8], buffer: &mut [u8]) -> usize {
        let text = print::print(job);
        buffer[..TEXT_BYTES].copy_from_slice(&text.bytes);
        text.len.min(TEXT_BYTES)
    }
}

// Reads a job and writes its lines: those of the bytes that the input has. Of a job that cannot be read nothing is written.
fn serve<R: Read, W: Write>(input: &mut R, output: &mut W) -> Served
    ensures lines { result.read ≡ true → result.written ≡ true → IfSome (R.remaining input.old)
        (λ job. Appends (W.contents output.old) (W.contents output.new) (printed job)) }
    ensures none { result.read ≡ false → Keeps (W.contents output.old) (W.contents output.new) }
{
    let mut job = [0u8; MOST_BYTES];
    let mut text = [0u8; TEXT_BYTES];
    stream::serve_exact::<Lines, R, W>(input, output, &mut job, &mut text)
}

fn main(rt: HostRuntime) -> io::Result<()> {
    let served = serve(&mut rt.stdin(), &mut rt.stdout());
    if !served.written {
        eprintln!(rt; "desk: standard output cannot be written")?;
    }
    if !served.read {
        eprintln!(rt; "desk: standard input cannot be read")?;
    }
    Ok(())
}
