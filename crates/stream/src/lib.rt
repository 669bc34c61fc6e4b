// Standard input and output of the programs, and any other reader and writer: a read that fails is told from the end of the input, and a write that fails from one that does not.
#![tactic(auto)]

ghost use Rattle.std.specs.Prelude.{◌≡◌, ℕ, ◌+◌, ◌≤◌, ◌<◌, true, false, cond, List, [], ◌∷◌, length, take, MatchResult, IfOk, OnOk, IfSome, is_ok};
ghost use Rattle.std.specs.Io.KnownBytes.{Appends, Consumes, IsAtEnd, Keeps};
ghost use Rattle.stream.specs.Input.{read_length};

use std::io;
use std::io::{ErrorKind, Read, Write};
use std::marker::PhantomData;

// A read failed: so many bytes were read before it.
#[derive(Clone, Copy)]
pub struct Cut {
    pub length: usize,
}

// Reads until the job is full, the input ends or a read fails, and tells how many bytes were read. Which bytes there are, and whether a read fails, is the system's to say.
pub fn read_all<R: Read>(input: &mut R, job: &mut [u8]) -> Result<usize, Cut>
    ensures fits { read_length result ≤ length job.new }
    ensures prefix { read_length result ≡ length (take (read_length result) job.new) }
    ensures bytes { Consumes (R.remaining input.old) (R.remaining input.new)
        (take (read_length result) job.new) }
    ensures end { IfOk result (λ n. n < length job.new → IsAtEnd (R.remaining input.new)) }
{
    // Stays a `while`: each turn goes on by as many bytes as the system gave.
    let mut n: usize = 0;
    while n < job.len() {
        match input.read(&mut job[n..]) {
            Ok(0) => return Ok(n),
            Ok(more) => n += more,
            Err(_) => return Err(Cut { length: n }),
        }
    }
    Ok(n)
}

// The first n of the bytes go to the output. Whether they are all written is the system's to say, but more than there are is never said to be written.
// Where an error is returned, a first part of them may have been written, and nothing else. An output that is closed is told from one that is not, also by no bytes: it takes no write of none.
pub fn write<W: Write>(output: &mut W, bytes: &[u8], n: usize) -> io::Result<()>
    ensures fits { OnOk result (n ≤ length bytes.now) }
    ensures written { OnOk result
        (Appends (W.contents output.old) (W.contents output.new) (take n bytes.now)) }
    ensures part { (k : ℕ) × (k ≤ n)
        × Appends (W.contents output.old) (W.contents output.new) (take k bytes.now) }
    ensures kept { length bytes.now < n → Keeps (W.contents output.old) (W.contents output.new) }
{
    if n > bytes.len() {
        return Err(io::Error::from(ErrorKind::InvalidInput));
    }
    if n == 0 {
        output.write(&[])?;
    }
    // `write_all` says nothing of what an error leaves (the clause `part`), and tries again where a write was interrupted.
    let mut done: usize = 0;
    while done < n {
        match output.write(&bytes[done..n])? {
            0 => return Err(io::Error::from(ErrorKind::WriteZero)),
            more => done += more,
        }
    }
    output.flush()
}

// What a program prints of a job: a text, and how much room it takes at most.
pub trait Printer {
    ghost text: { List ℕ → List ℕ };

    ghost room: { ℕ };

    // Puts the text of the job at the start of a buffer with room for it, and returns how many bytes it has; where the text fills the buffer, any number past it serves.
    fn print(job: &[u8], buffer: &mut [u8]) -> usize
        requires { room ≤ length buffer.old }
        ensures { take result buffer.new ≡ text job.now };
}

// A printer that returns just how many bytes the text has, also where the text fills the buffer, so that `write` can be handed what it returns. A trait of its own, since it asks more of who implements it.
pub trait ExactPrinter {
    ghost text: { List ℕ → List ℕ };

    ghost room: { ℕ };

    // Puts the text of the job at the start of a buffer with room for it, and returns how many bytes it has.
    fn print(job: &[u8], buffer: &mut [u8]) -> usize
        requires { room ≤ length buffer.old }
        ensures len { result ≡ length (text job.now) }
        ensures printed { take result buffer.new ≡ text job.now };
}

// Any printer made exact: no more is returned than the buffer has.
struct Within<P> {
    of: PhantomData<P>,
}

impl<P: Printer> ExactPrinter for Within<P> {
    ghost text = { P.text };

    ghost room = { P.room };

    fn print(job: &[u8], buffer: &mut [u8]) -> usize {
        P::print(job, buffer).min(buffer.len())
    }
}

// The text of a job that is read whole, and none of another. Returns how many bytes it has.
fn reply<P: ExactPrinter>(job: &[u8], told: Result<usize, Cut>, buffer: &mut [u8]) -> usize
    requires room { P.room ≤ length buffer.old }
    requires fits { read_length told ≤ length job.now }
    ensures len { result ≡ length (cond (is_ok told) (P.text (take (read_length told) job.now)) []) }
    ensures printed { take result buffer.new ≡ cond (is_ok told) (P.text (take (read_length told) job.now)) [] }
{
    match told {
        Ok(n) => P::print(&job[..n], buffer),
        Err(_) => 0,
    }
}

// Whether a job was read whole, and whether all of its text was written.
#[derive(Clone, Copy)]
pub struct Served {
    pub read: bool,
    pub written: bool,
}

// Reads a job and writes its text: that of the bytes that the input has, as far as the room for the job goes. Of a job that cannot be read nothing is written.
pub fn serve_exact<P: ExactPrinter, R: Read, W: Write>(
    input: &mut R,
    output: &mut W,
    job: &mut [u8],
    buffer: &mut [u8],
) -> Served
    requires { P.room ≤ length buffer.old }
    ensures text { result.read ≡ true → result.written ≡ true → IfSome (R.remaining input.old)
        (λ bytes. Appends (W.contents output.old) (W.contents output.new)
        (P.text (take (length job.old) bytes))) }
    ensures none { result.read ≡ false → Keeps (W.contents output.old) (W.contents output.new) }
{
    let told = read_all(input, job);
    let len = reply::<P>(job, told, buffer);
    let written = write(output, buffer, len);
    Served {
        read: told.is_ok(),
        written: written.is_ok(),
    }
}

// The same of any printer, also of one that is not exact.
pub fn serve<P: Printer, R: Read, W: Write>(
    input: &mut R,
    output: &mut W,
    job: &mut [u8],
    buffer: &mut [u8],
) -> Served
    requires { P.room ≤ length buffer.old }
    ensures text { result.read ≡ true → result.written ≡ true → IfSome (R.remaining input.old)
        (λ bytes. Appends (W.contents output.old) (W.contents output.new)
        (P.text (take (length job.old) bytes))) }
    ensures none { result.read ≡ false → Keeps (W.contents output.old) (W.contents output.new) }
{
    serve_exact::<Within<P>, R, W>(input, output, job, buffer)
}

#[cfg(test)]
mod tests {
    use super::*;
    use std::test::Fail;

    // Gives three bytes a read at most. The read of number `fails` fails, and takes nothing.
    #[derive(Drop)]
    struct Faulty<'a> {
        left: &'a [u8],
        reads: u8,
        fails: u8,
    }

    impl Read for Faulty<'_> {
        fn read(&mut self, buf: &mut [u8]) -> io::Result<usize> {
            let turn = self.reads;
            self.reads = turn.saturating_add(1);
            if turn == self.fails {
                return Err(io::Error::other("the read fails"));
            }
            let most = buf.len().min(3);
            self.left.read(&mut buf[..most])
        }
    }

    // Takes three bytes a write at most. The write of number `fails` fails, and takes nothing.
    #[derive(Drop)]
    struct Clogged {
        held: Vec<u8>,
        writes: u8,
        fails: u8,
    }

    impl Write for Clogged {
        fn write(&mut self, buf: &[u8]) -> io::Result<usize> {
            let turn = self.writes;
            self.writes = turn.saturating_add(1);
            if turn == self.fails {
                return Err(io::Error::other("the write fails"));
            }
            let most = buf.len().min(3);
            self.held.write(&buf[..most])
        }

        fn flush(&mut self) -> io::Result<()> {
            Ok(())
        }
    }

    #[test]
    fn reads_to_the_end_or_until_full(rt: HostRuntime) {
        let mut job = [0u8; 10];
        let mut reader = Faulty {
            left: b"nine more",
            reads: 0,
            fails: 100,
        };
        let input = read_all(&mut reader, &mut job);
        assert!(rt; matches!(input, Ok(9)));
        assert_eq!(rt; job, *b"nine more\0");
        let mut short = [0u8; 4];
        let mut bytes: &[u8] = b"nine more";
        let input = read_all(&mut bytes, &mut short);
        assert!(rt; matches!(input, Ok(4)));
        assert_eq!(rt; short, *b"nine");
        assert_eq!(rt; bytes.len(), 5);
    }

    // A read that fails in mid-stream leaves the bytes before it, and the next call begins where it failed.
    #[test]
    fn a_failed_read_is_told(rt: HostRuntime) {
        let mut job = [0u8; 10];
        let mut reader = Faulty {
            left: b"nine more",
            reads: 0,
            fails: 1,
        };
        let input = read_all(&mut reader, &mut job);
        assert!(rt; matches!(input, Err(Cut { length: 3 })));
        assert_eq!(rt; &job[..3], b"nin".as_slice());
        let rest = read_all(&mut reader, &mut job);
        assert!(rt; matches!(rest, Ok(6)));
        assert_eq!(rt; &job[..6], b"e more".as_slice());
    }

    #[test]
    fn writes_all_or_says_so(rt: HostRuntime) -> Result<(), Fail> {
        let mut writer = Clogged {
            held: Vec::new(rt.alloc()),
            writes: 0,
            fails: 100,
        };
        assert!(rt; write(&mut writer, b"ten bytes and more", 10).is_ok());
        assert_eq!(rt; writer.held.as_slice(), b"ten bytes ".as_slice());
        assert!(rt; write(&mut writer, b"four", 5).is_err());
        assert!(rt; write(&mut writer, b"four", 0).is_ok());
        assert_eq!(rt; writer.held.as_slice(), b"ten bytes ".as_slice());
        Ok(())
    }

    // A write that fails in mid-stream leaves the bytes before it alone, and what is written next follows them.
    #[test]
    fn a_failed_write_is_told(rt: HostRuntime) -> Result<(), Fail> {
        let mut writer = Clogged {
            held: Vec::new(rt.alloc()),
            writes: 0,
            fails: 2,
        };
        assert!(rt; write(&mut writer, b"ten bytes ", 10).is_err());
        assert_eq!(rt; writer.held.as_slice(), b"ten by".as_slice());
        assert!(rt; write(&mut writer, b"more", 4).is_ok());
        assert_eq!(rt; writer.held.as_slice(), b"ten bymore".as_slice());
        Ok(())
    }

    // Where there is nothing to write, an output that takes no write is told too, and so is a full one.
    #[test]
    fn a_closed_or_full_output_is_told(rt: HostRuntime) -> Result<(), Fail> {
        let mut closed = Clogged {
            held: Vec::new(rt.alloc()),
            writes: 0,
            fails: 0,
        };
        assert!(rt; write(&mut closed, b"", 0).is_err());
        let mut room = [0u8; 4];
        let mut full: &mut [u8] = &mut room;
        assert!(rt; write(&mut full, b"six by", 6).is_err());
        assert_eq!(rt; room, *b"six ");
        Ok(())
    }

    // Prints a star, and where that fills the buffer returns a byte more.
    struct Star;

    impl Printer for Star {
        ghost text = { λ job. 42 ∷ [] };

        ghost room = { 1 };

        fn print(_job: &[u8], buffer: &mut [u8]) -> usize {
            buffer[0] = b'*';
            if buffer.len() == 1 { 2 } else { 1 }
        }
    }

    // A printer that is not exact is served too, also where its text fills the buffer.
    #[test]
    fn any_printer_is_served(rt: HostRuntime) -> Result<(), Fail> {
        let mut held = Vec::new(rt.alloc());
        let mut job = [0u8; 4];
        let mut wide = [0u8; 9];
        let mut input: &[u8] = b"job";
        let served = serve::<Star, &[u8], Vec<u8>>(&mut input, &mut held, &mut job, &mut wide);
        assert!(rt; served.read && served.written);
        let mut full = [0u8; 1];
        let served = serve::<Star, &[u8], Vec<u8>>(&mut input, &mut held, &mut job, &mut full);
        assert!(rt; served.read && served.written);
        assert_eq!(rt; held.as_slice(), b"**".as_slice());
        Ok(())
    }

    // Of a job that cannot be read no printer's text is written.
    #[test]
    fn no_printer_for_a_failed_read(rt: HostRuntime) -> Result<(), Fail> {
        let mut held = Vec::new(rt.alloc());
        let mut job = [0u8; 4];
        let mut text = [0u8; 9];
        let mut reader = Faulty {
            left: b"job",
            reads: 0,
            fails: 1,
        };
        let served = serve::<Star, Faulty<'_>, Vec<u8>>(
            &mut reader,
            &mut held,
            &mut job,
            &mut text,
        );
        assert!(rt; !served.read && served.written);
        assert_eq!(rt; held.as_slice(), b"".as_slice());
        Ok(())
    }
}
