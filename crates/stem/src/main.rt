// Reads a rate, four bytes, the lowest first, and then a job list, and writes the stem of the list at that rate. One byte more than the most is read, so
// that a list that is too long is seen. A refusal writes nothing, and its number is one line on standard error; so is what cannot be read or written.
#![tactic(auto)]

ghost use Rattle.std.specs.Prelude.{◌≡◌, take};
ghost use Rattle.io.specs.Counts.{IsPrefixLen};
ghost use Rattle.stems.specs.Compose.{stem_for, number_for};
ghost use Rattle.stem.specs.Told.{number_of, count_of};

// An input that could not be read to its end is none: nothing is written for it.
fn main(rt: HostRuntime) {
    let mut bytes = [0u8; 65541];
    if let Some(n) = streams::read(rt, b"stem", &mut bytes) {
        answer(rt, &bytes[..n]);
    }
}

// There is room for the longest stem.
fn answer(rt: HostRuntime, input: &[u8]) {
    let mut stem = [0u8; wave::ROOM];
    write(rt, input, &mut stem);
}

// The stem, or else the number on a line of its own.
fn write(rt: HostRuntime, input: &[u8], stem: &mut [u8; wave::ROOM]) {
    match compose(input, stem) {
        Ok(end) => {
            streams::write(rt, b"stem", &stem[..end]);
        }
        Err(number) => {
            let _ = eprintln!(rt; "{number}");
        }
    }
}

// What is written for the bytes that were read: their stem, whole, and nothing else, and the number that is said of them. That is all that a contract can
// say of the program; which bytes those are, no contract says.
fn compose(input: &[u8], stem: &mut [u8; wave::ROOM]) -> Result<usize, u32>
    ensures prefix_len { IsPrefixLen (count_of result) stem.new }
    ensures number_value { number_of result ≡ number_for input.now }
    ensures stem_after { take (count_of result) stem.new ≡ stem_for input.now }
{
    match stems::compose(input, stem) {
        Ok(end) => Ok(end),
        Err(refusal) => Err(stems::number(Err(refusal))),
    }
}
