// The sheet program: standard input is a job, and its sheet for the wall file goes to standard output. Where a read fails there is no job and no sheet. That, or a
// write that fails, is said on standard error, where nothing else is written. The command `sheet` at the top makes the exit status of it, as `desk` does for the desk program.
#![tactic(auto)]

ghost use Rattle.std.specs.Prelude.{◌≡◌, true, false, take, IfSome};
ghost use Rattle.std.specs.Io.KnownBytes.{Appends, Keeps};
ghost use Rattle.output.specs.Sheet.{sheet_of};
ghost use Rattle.output.specs.Lines.{most_bytes};
ghost use Rattle.wall.specs.Listed.{sheet_bytes};

use std::io;
use std::io::{Read, Write};
use stream::{ExactPrinter, Served};
use table::MOST_BYTES;
use wall::SHEET_BYTES;

// What the sheet program prints of a job: its sheet.
struct Sheet;

impl ExactPrinter for Sheet {
    ghost text = { sheet_of };

    ghost room = { sheet_bytes };

    fn print(job: &[u8], buffer: &mut [u8]) -> usize {
        wall::sheet(job, buffer).len
    }
}

// Reads a job and writes its sheet: that of the first 16,384 bytes that the input has. Of a job that cannot be read nothing is written.
fn serve<R: Read, W: Write>(input: &mut R, output: &mut W) -> Served
    ensures sheet { result.read ≡ true → result.written ≡ true → IfSome (R.remaining input.old)
        (λ job. Appends (W.contents output.old) (W.contents output.new) (sheet_of (take most_bytes job))) }
    ensures none { result.read ≡ false → Keeps (W.contents output.old) (W.contents output.new) }
{
    let mut job = [0u8; MOST_BYTES];
    let mut text = [0u8; SHEET_BYTES];
    stream::serve_exact::<Sheet, R, W>(input, output, &mut job, &mut text)
}

fn main(rt: HostRuntime) -> io::Result<()> {
    let served = serve(&mut rt.stdin(), &mut rt.stdout());
    if !served.written {
        eprintln!(rt; "sheet: standard output cannot be written")?;
    }
    if !served.read {
        eprintln!(rt; "sheet: standard input cannot be read")?;
    }
    Ok(())
}
