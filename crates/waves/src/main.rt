// Test program: reads records of 64 bytes from standard input, hands the samples that each stands for to `wave`, and prints a line with its answer and
// the sum of all lent bytes after it. A last record that is not whole is left out.
#![tactic(auto)]

mod record;

type Line = testing::Line<11>;

// The samples that a record may ask for: one more than a stem has at most.
const MOST_SAMPLES: usize = 1_048_577;

// The bytes that it may lend: eight more than the longest stem has.
const MOST_BYTES: usize = 2_097_204;

// A line for each record. The buffers are as large as fits on a stack, and so they are made once.
fn main(rt: HostRuntime) {
    let mut samples = [0.0f32; MOST_SAMPLES];
    let mut lent = [0u8; MOST_BYTES];
    testing::repeat(|| print_next(rt, &mut samples, &mut lent));
}

// Prints the line of the next record, and answers whether there may be more. One that the test programs share would need a contract on what is written,
// which `streams::write` has none of.
fn print_next(rt: HostRuntime, samples: &mut [f32], lent: &mut [u8]) -> bool {
    let mut record = [0u8; 64];
    streams::fill(rt, b"waves", &mut record)
        && streams::write(rt, b"waves", line_of(&record, samples, lent).as_bytes())
}

// A record's line. Of the buffers the call gets as many samples and bytes as the record says, and without so many there is no call.
fn line_of(record: &[u8; 64], samples: &mut [f32], lent: &mut [u8]) -> Line {
    let mut line = Line::new();
    let [rate, count, room] = testing::words_at::<3>(record, 0);
    match (
        samples.get_mut(..count as usize),
        lent.get_mut(..room as usize),
    ) {
        (Some(samples), Some(lent)) => {
            record::fill(samples, record);
            // Every byte is 165, so that one that is written shows, and one that stays too.
            lent.fill(165);
            let written = wave::write(rate, samples, lent);
            line.put_number(wave::number(written), b' ');
            line.put_word(testing::sum(lent), b'\n');
        }
        _ => line.put(b"-\n"),
    }
    line
}
