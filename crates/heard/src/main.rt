// Test program: reads job lists from standard input, each after its length in four bytes, little-endian, and plays their records into a lent buffer,
// each from the states that those before it left. For each record it prints a line with what it answered and which samples it left, and after each
// list a line `-`. A list that is no job list has the one line `8`. It ends at a list that is cut short or has more than 70,000 bytes.
#![tactic(auto)]

ghost use Rattle.std.specs.Prelude.{◌≤◌, length};

mod line;

// The lines of each list.
fn main(rt: HostRuntime) {
    testing::repeat(|| say_next(rt));
}

// Prints the lines of the next list, and answers whether there may be more.
fn say_next(rt: HostRuntime) -> bool {
    let mut length = [0u8; 4];
    streams::fill(rt, b"heard", &mut length) && say_list_of(rt, u32::from_le_bytes(length) as usize)
}

// A list of n bytes. The room for it stands first in a function: behind a call it would be cleared twice.
fn say_list_of(rt: HostRuntime, n: usize) -> bool {
    let mut space = [0u8; 70000];
    match space.get_mut(..n) {
        Some(list) => {
            streams::fill(rt, b"heard", list)
                && say_list(rt, list)
                && streams::write(rt, b"heard", b"-\n")
        }
        None => false,
    }
}

// The lines of a list.
fn say_list(rt: HostRuntime, list: &[u8]) -> bool {
    if !render::is_job_list(list) {
        return streams::write(rt, b"heard", b"8\n");
    }
    say_records(rt, list)
}

// Each record from the states that the one before left, in a buffer that holds marks before it, until a line is not written.
fn say_records(rt: HostRuntime, list: &[u8]) -> bool
    requires { length list.now ≤ 65536 }
{
    let mut bank = bank::start();
    for k in 0..list.len() / 64 {
        let mut out = [line::UNTOUCHED; 4096];
        let answer = bank::play(&mut bank, jobs::record(list, k), &mut out);
        if !line::say(rt, k as u32, answer, &out) {
            return false;
        }
    }
    true
}
