// The job program: reads a job file from standard input and writes the answer to standard output. Its status is 0 always; where a read or a
// write fails, the reason stands on standard error.
#![tactic(auto)]

ghost use Rattle.std.specs.Prelude.{◌≤◌, length, IfOk};

use std::io;
use std::io::{Read, Write};

// Reads until the input ends or `file` is full: the count of bytes. The library's methods that read to the end want a Vec; this memory is fixed.
fn read_input(input: &mut impl Read, file: &mut [u8]) -> io::Result<usize>
    ensures { IfOk result (λ count. count ≤ length file.new) }
{
    let mut count = 0;
    while count < file.len() {
        let more = input.read(&mut file[count..])?;
        if more == 0 {
            return Ok(count);
        }
        count += more;
    }
    Ok(count)
}

// Writes the answer to a file.
fn write_answer(output: &mut impl Write, file: &[u8]) -> io::Result<()> {
    let mut text = [0u8; job::LONGEST];
    let count = job::answer(file, &mut text);
    output.write_all(&text[..count])
}

// The system's words for an error, which stand before its number.
fn words(text: &str) -> &str {
    match text.split_once(" (os error ") {
        Some((before, _number)) => before,
        None => text,
    }
}

// Says on standard error which stream failed, and why.
fn tell<R: Eprint + Alloc>(rt: &R, stream: &str, error: io::Error) -> io::Result<()> {
    let text = format!(in rt.alloc(); "{error}")?;
    let reason = words(text.as_str());
    eprintln!(rt; "{stream}: {reason}")
}

// The buffer has a byte more than the longest file, so that a longer one shows.
fn main(rt: HostRuntime) {
    let mut file = [0u8; job_file::MOST_BYTES + 1];
    let told = match read_input(&mut rt.stdin(), &mut file) {
        Ok(count) => match write_answer(&mut rt.stdout(), &file[..count]) {
            Ok(()) => Ok(()),
            Err(error) => tell(&rt, "standard output", error),
        },
        Err(error) => tell(&rt, "standard input", error),
    };
    // where standard error fails too, nothing is left to say
    let _ = told;
}
