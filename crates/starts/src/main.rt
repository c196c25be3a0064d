// Test program: prints the states that each oscillator starts from. Then reads records of 44 bytes from standard input, a state's ten words and a float,
// and prints for each what the three forms of the variable shape's `set_master_phase` and the two of the classic's `init` answered and left, the float
// their phase and their sample rate. A last record that is not whole is left out.
#![tactic(auto)]

mod fields;
mod rating;
mod setting;
mod starting;

type Line = testing::Line<442>;

// The starts, and then a line for each record.
fn main(rt: HostRuntime) {
    if starting::say_all(rt) {
        testing::repeat(|| answer_next(rt));
    }
}

// Prints the line of the next record, and answers whether there may be more. One that the test programs share would need a contract on what is written,
// which `streams::write` has none of.
fn answer_next(rt: HostRuntime) -> bool {
    let mut record = [0u8; 44];
    streams::fill(rt, b"starts", &mut record)
        && streams::write(rt, b"starts", line_of(&record).as_bytes())
}

// A record's line. Its words are a variable shape's, the first nine of them a classic's too, and the float after them is a phase and a sample rate.
fn line_of(record: &[u8; 44]) -> Line {
    let given = floats::from_bits(testing::word_at(record, 40));
    let mut line = Line::new();
    setting::put_forms(&mut line, testing::words_at(record, 0), given);
    rating::put_forms(&mut line, testing::words_at(record, 0), given);
    line
}

// An answer's number and the words that were left.
fn put_left(line: &mut Line, number: u32, words: &[u32], last: u8) {
    line.put_number(number, b' ');
    line.put_words(words, last);
}
