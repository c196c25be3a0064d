// Test program: reads call records of 128 bytes from standard input, makes each call through the face for other languages, and prints a line
// with what it left. A last record that is not whole is left out.
#![tactic(auto)]

ghost use Rattle.std.specs.Prelude.{◌≤◌};

mod kinds;
mod line;
mod record;
mod samples;

use line::Line;

// A line for each record.
fn main(rt: HostRuntime) {
    testing::repeat(|| print_next(rt));
}

// Prints the line of the next record, and answers whether there may be more. One that the test programs share would need a contract on what is written,
// which `streams::write` has none of.
fn print_next(rt: HostRuntime) -> bool {
    let mut record = [0u8; 128];
    streams::fill(rt, b"calls", &mut record)
        && streams::write(rt, b"calls", line_of(&record).as_bytes())
}

// A record's line. A block that is too long has no room, and none is made for it.
fn line_of(record: &[u8; 128]) -> Line {
    let n = record::block_length(record);
    if n > 8192 {
        return line::dash();
    }
    line_in_room(record, n)
}

// Of the buffer the call gets as many samples as its block is long.
fn line_in_room(record: &[u8; 128], n: usize) -> Line
    requires { n ≤ 8192 }
{
    let mut buffer = [0.0f32; 8192];
    line_of_call(record, &mut buffer[..n])
}

// The line of the call with this block, by its kind. That is the record's first byte, as its second below: recorded input, whose layout does not change.
fn line_of_call(record: &[u8; 128], out: &mut [f32]) -> Line {
    samples::fill(out, testing::word_at(record, 60));
    match record[0] {
        1 => line_of_variable_shape(record, out),
        2 => kinds::variable_saw(record, out),
        3 => kinds::super_square(record, out),
        4 => kinds::nes_triangle(record, out),
        5 => kinds::string_synth(record, out),
        6 => line_of_classic(record, out),
        _ => line::dash(),
    }
}

// The variable shape's: a block, or with 128 in place of its flags the master's phase set.
fn line_of_variable_shape(record: &[u8; 128], out: &mut [f32]) -> Line {
    match record[1] {
        128 => kinds::master_phase(record, out),
        _ => kinds::variable_shape(record, out),
    }
}

// The classic's: a block of a shape, or with 128 in its place a start. No other number is a shape's.
fn line_of_classic(record: &[u8; 128], out: &mut [f32]) -> Line {
    match record[1] {
        0..=7 => kinds::classic(record, out),
        128 => kinds::start(record, out),
        _ => line::dash(),
    }
}
