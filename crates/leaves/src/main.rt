// Test program: reads records of three little-endian bit patterns from standard input, and prints for each a line with what the leaves make
// of it. A last record that is not whole is left out.
#![tactic(auto)]

use parameter_interpolator::ParameterInterpolator;

// Each of the twelve fields takes at most 8 bytes and the one after it.
type Line = testing::Line<108>;

// A line for each record.
fn main(rt: HostRuntime) {
    testing::repeat(|| print_next(rt));
}

// Prints the line of the next record, and answers whether there may be more. One that the test programs share would need a contract on what is written,
// which `streams::write` has none of.
fn print_next(rt: HostRuntime) -> bool {
    let mut record = [0u8; 12];
    streams::fill(rt, b"leaves", &mut record)
        && streams::write(rt, b"leaves", line_of(&record).as_bytes())
}

// A record's line.
fn line_of(record: &[u8; 12]) -> Line {
    let [x, y, z] = testing::words_at::<3>(record, 0);
    let a = floats::from_bits(x);
    let b = floats::from_bits(y);
    let mut line = Line::new();
    put_bleps(&mut line, a);
    put_helpers(&mut line, a, b, floats::from_bits(z));
    put_steps(&mut line, a, b, z % 65536);
    line
}

// The four residuals and the whole part, of x alone.
fn put_bleps(line: &mut Line, x: f32) {
    put_float(line, polyblep::this_blep_sample(x), b' ');
    put_float(line, polyblep::next_blep_sample(x), b' ');
    put_float(line, polyblep::this_integrated_blep_sample(x), b' ');
    put_float(line, polyblep::next_integrated_blep_sample(x), b' ');
    line.put_word(whole_part::whole_part(x), b' ');
}

// Min and max of x and y, x clamped from y to z, and abs of x.
fn put_helpers(line: &mut Line, x: f32, y: f32, z: f32) {
    put_float(line, floats::min(x, y), b' ');
    put_float(line, floats::max(x, y), b' ');
    put_float(line, floats::clamp(x, y, z), b' ');
    put_float(line, floats::abs(x), b' ');
}

// The increment and the first two steps from `x` to `y` over `size` samples, at the line's end.
fn put_steps(line: &mut Line, x: f32, y: f32, size: u32) {
    let start = ParameterInterpolator::new(x, y, size);
    let first = start.next();
    let second = first.next();
    put_float(line, start.increment, b' ');
    put_float(line, first.value, b' ');
    put_float(line, second.value, b'\n');
}

// A float's bits and the byte after them. Every NaN is the one word, since its bits may differ from machine to machine.
fn put_float(line: &mut Line, x: f32, after: u8) {
    if x.is_nan() {
        line.put(b"nan");
        line.put_byte(after);
    } else {
        line.put_word(floats::to_bits(x), after);
    }
}
