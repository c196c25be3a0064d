// Test program: reads job records of 64 bytes from standard input, and prints a line for each with what `jobs::record` and `jobs::read` give.
// The whole records of a chunk are handed over as one list, of which each is taken by its number. A rest of fewer than 64 bytes, at the
// input's end, is in no list: it is read as a part of its own, and its line is the last.
#![tactic(auto)]

mod line;

// The lines of all records.
fn main(rt: HostRuntime) {
    testing::repeat(|| say_some(rt));
}

// Prints the lines of the next 64 records, and answers whether there may be more.
fn say_some(rt: HostRuntime) -> bool {
    let mut input = [0u8; 4096];
    match streams::read(rt, b"records", &mut input) {
        Some(n) => say_chunk(rt, testing::front(&input, n)) & (n == 4096),
        None => false,
    }
}

// The lines of a chunk.
fn say_chunk(rt: HostRuntime, chunk: &[u8]) -> bool {
    let (list, rest) = chunk.split_at(chunk.len() / 64 * 64);
    say_list(rt, list) && say_rest(rt, rest)
}

// The records one after the other, until a line is not written.
fn say_list(rt: HostRuntime, list: &[u8]) -> bool {
    (0..list.len() / 64).all(|k| line::say(rt, jobs::read(jobs::record(list, k))))
}

// A last part that is shorter than 64 bytes is a record too.
fn say_rest(rt: HostRuntime, part: &[u8]) -> bool {
    part.is_empty() || line::say(rt, jobs::read(part))
}
