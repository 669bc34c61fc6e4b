// Runs recorded cases: standard input, of which 65,536 bytes are read, holds jobs and what another
// implementation prints for each. Standard output says how many of these answers are the desk's. Where a read fails, it says that of what was read before, and the program ends with an error.
#![tactic(auto)]

ghost use Rattle.std.specs.Prelude.{◌≡◌};
ghost use Rattle.output.specs.Lines.{printed};
ghost use Rattle.cases.specs.Cases.{job_length, answer_length, case_length, same, agrees as agreesOf, at_end, after as after_of, tally_of};
ghost use Rattle.stream.specs.Input.{read_length};

use format::TEXT_BYTES;
use std::io;
use stream::Cut;

// How many recorded answers are what the desk prints, and how many are not.
#[derive(Clone, Copy)]
struct Tally {
    agree: usize,
    differ: usize,
}

// The length of the job of the first case.
fn job_length(file: &[u8]) -> u16
    ensures { result ≡ job_length file.now }
{
    u16::from_le_bytes([table::get_or(file, 0, 0), table::get_or(file, 1, 0)])
}

// The length of its answer.
fn answer_length(file: &[u8]) -> u8
    ensures { result ≡ answer_length file.now }
{
    let n = job_length(file) as usize;
    table::get_or(file, n + 2, 0)
}

// How many bytes the first case takes.
fn case_length(file: &[u8]) -> usize
    ensures { result ≡ case_length file.now }
{
    let job = job_length(file) as usize;
    let answer = answer_length(file) as usize;
    job + 3 + answer
}

// Whether the file ends here: no byte is left, or FF FF stands in place of a length.
fn at_end(file: &[u8]) -> bool
    ensures { result ≡ at_end file.now }
{
    file.len() == 0 || job_length(file) == 0xFFFF
}

// What follows the first case; nothing, where bytes of it are missing.
fn after(file: &[u8]) -> &[u8]
    ensures { result.now ≡ after_of file.now }
{
    let n = case_length(file);
    if n <= file.len() {
        &file[n..]
    } else {
        &file[..0]
    }
}

// Whether the answer is what the desk prints for the job.
fn prints<'a>(job: &'a [u8], answer: &'a [u8]) -> bool
    ensures { result ≡ same (printed job.now) answer.now }
{
    let text = print::print(job);
    check::same(&text.bytes[..text.len.min(TEXT_BYTES)], answer)
}

// Whether the first case agrees. One with bytes missing does not.
fn agrees(file: &[u8]) -> bool
    ensures { result ≡ agreesOf file.now }
{
    let a = job_length(file) as usize + 2;
    let b = a + 1;
    let end = case_length(file);
    if end <= file.len() {
        return prints(&file[2..a], &file[b..end]);
    }
    false
}

// Counts all cases of the file.
fn count(file: &[u8]) -> Tally
    ensures { result ≡ tally_of file.now }
{
    let mut left = file;
    let mut agree: usize = 0;
    let mut differ: usize = 0;
    // Stays a `while`: each turn takes off one case, as long as it says.
    while !at_end(left) {
        if agrees(left) {
            agree += 1;
        } else {
            differ += 1;
        }
        left = after(left);
    }
    Tally { agree, differ }
}

// One line of the result.
fn write(rt: &impl Print, word: &str, n: usize) -> io::Result<()> {
    println!(rt; "{word}{n}")
}

// How many bytes were read, all or not.
fn length_of(input: Result<usize, Cut>) -> usize
    ensures { result ≡ read_length input }
{
    match input {
        Ok(n) => n,
        Err(cut) => cut.length,
    }
}

fn main(rt: HostRuntime) -> io::Result<()> {
    let mut file = [0u8; 65536];
    let input = stream::read_all(&mut rt.stdin(), &mut file);
    let n = length_of(input);
    let t = count(&file[..n]);
    write(&rt, "agree ", t.agree)?;
    write(&rt, "differ ", t.differ)?;
    match input {
        Ok(_) => Ok(()),
        Err(_) => Err(io::Error::other("standard input cannot be read")),
    }
}
