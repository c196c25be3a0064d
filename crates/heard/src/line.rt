// A record's line: its index, answer, Drift index or else 0, cycles, rises, falls, cuts and late, as the renderer prints them; then how many samples it
// left, and their checksum.
ghost use Rattle.std.specs.Prelude.{◌≤◌, length};

use block::{Counts, Refusal};

// What each sample holds before a record is played. No call leaves it: its samples are a few units large, or infinite, or NaN.
pub(crate) const UNTOUCHED: f32 = 1.0e30;

// The line of record k, from what the bank answered and the buffer that it was lent.
pub(crate) fn say(
    rt: HostRuntime,
    k: u32,
    answer: Result<Counts, Refusal>,
    out: &[f32; 4096],
) -> bool {
    let counts = answer.unwrap_or(block::none());
    let left = left(out);
    let mut line = testing::Line::<108>::new();
    for number in [
        k,
        block::number(answer),
        block::index(answer),
        counts.cycles,
        counts.rises,
        counts.falls,
        counts.cuts,
        block::late(counts),
        left.len() as u32,
    ] {
        line.put_number(number, b' ');
    }
    line.put_word(testing::checksum(left), b'\n');
    streams::write(rt, b"heard", line.as_bytes())
}

// The samples before the first that was not touched.
fn left(out: &[f32]) -> &[f32]
    ensures { length result.now ≤ length out.now }
{
    match out.iter().position(|sample| *sample == UNTOUCHED) {
        Some(end) => &out[..end],
        None => out,
    }
}
