// Standard input and output, for every program of the repository: a read or a write that fails is one line on standard error, which begins with the
// program's name and ends with the system's reason. A program of the repository sets no exit status, so that line is how a script sees the failure.
// Runtime and program stand in front of each call, as the stream does of std's: a struct of them would be made for one call and opened in it.
#![tactic(auto)]

ghost use Rattle.std.specs.Prelude.{◌≡◌, length, IfOk};
ghost use Rattle.io.specs.Counts.{IsPrefixLen};
ghost use Rattle.streams.specs.Input.{Inside, is_full};

use arrayvec::ArrayString;
use std::fmt::Write as _;
use std::io;
use std::io::{Read, Write};

// Reads until the buffer is full or the input ends: so many bytes at the buffer's front, fewer than it holds only where the input ended. Or a read failed,
// which has been said, and what was read before it is no input. A count, as std's `read` gives it: the buffer is the
// caller's.
pub fn read(rt: HostRuntime, program: &[u8], buf: &mut [u8]) -> Option<usize>
    ensures { Inside result buf.new }
{
    match read_on(&mut rt.stdin(), buf) {
        Ok(n) => Some(n),
        Err(error) => {
            say_failure(rt, program, error);
            None
        }
    }
}

// A failed read is said, and nothing else.
fn say_failure(rt: HostRuntime, program: &[u8], error: io::Error) {
    fail(
        &mut rt.stderr(),
        program,
        b": cannot read standard input",
        error,
    )
}

// The same without a word. A read that a signal interrupts has failed. `done` is no index alone: it is the answer.
fn read_on<R: Read>(input: &mut R, buf: &mut [u8]) -> io::Result<usize>
    ensures { IfOk result (λ n. IsPrefixLen n buf.new) }
{
    let mut done = 0;
    while done < buf.len() {
        match input.read(&mut buf[done..])? {
            0 => break,
            more => done += more,
        }
    }
    Ok(done)
}

// Whether the input had as many bytes as the buffer holds. Where it ended before, nothing is said: what is left of it is no whole record.
// A bool is enough: there is nothing beside it, and what failed has been said.
pub fn fill(rt: HostRuntime, program: &[u8], buf: &mut [u8]) -> bool {
    let input = read(rt, program, buf);
    is_full(input, buf)
}

// A read that failed has filled nothing, whatever stands in the buffer.
fn is_full(input: Option<usize>, buf: &[u8]) -> bool
    ensures { result ≡ is_full input (length buf.now) }
{
    input == Some(buf.len())
}

// Writes all of the text, and answers whether that was done. Where it was not, that has been said, and a part of the text may have been written.
// So a bool is enough here too.
pub fn write(rt: HostRuntime, program: &[u8], text: &[u8]) -> bool {
    match put_all(&mut rt.stdout(), text) {
        Ok(()) => true,
        Err(error) => {
            fail(
                &mut rt.stderr(),
                program,
                b": cannot write standard output",
                error,
            );
            false
        }
    }
}

// The bytes one write after the other, up to the first that fails or takes none: of that the system says no more than that nothing went wrong.
// std's write_all has other words for it.
fn put_all<W: Write>(output: &mut W, bytes: &[u8]) -> io::Result<()> {
    let mut left = bytes;
    while !left.is_empty() {
        match output.write(left)? {
            0 => return Err(io::Error::from_raw_os_error(0)),
            taken => left = &left[taken..],
        }
    }
    Ok(())
}

// One line: the program, what it could not do, and why. Where it cannot be written there is nobody left to tell. What callers hand over are bytes and no
// text, so that no format takes them.
fn fail<W: Write>(errors: &mut W, program: &[u8], what: &[u8], error: io::Error) {
    let mut said = ArrayString::<256>::new();
    let _ = write!(said, "{error}");
    let _ = put_all(errors, program);
    let _ = put_all(errors, what);
    let _ = put_all(errors, b": ");
    let _ = put_all(errors, reason(said.as_str()).as_bytes());
    let _ = put_all(errors, b"\n");
}

// The words of an error, without the number that std puts behind those of the system: a script reads the line.
fn reason(said: &str) -> &str {
    match said.rsplit_once(" (os error ") {
        Some((words, _)) => words,
        None => said,
    }
}
