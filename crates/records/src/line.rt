// A record's line: the kind, the block length, the settings in the order of their declaration, and the registration.
// Floats are words by their bits, a NaN as 7fc00000; bools are 0 or 1, and a shape is its number. A malformed record has the kind 0 and no settings.
use jobs::{Job, Settings};

type Line = testing::Line<144>;

// The line of one job record; answers whether it was written.
pub(crate) fn say(rt: HostRuntime, job: Job) -> bool {
    let mut line = Line::new();
    let asked = job.asked;
    match asked {
        None => put_head(&mut line, 0, job.block_length),
        Some(settings) => put_settings(&mut line, settings, job.block_length),
    }
    let words: [u32; 7] = std::array::from_fn(|k| floats::to_bits(job.registration[k]));
    line.put_words(&words, b'\n');
    streams::write(rt, b"records", line.as_bytes())
}

// The kind and the block length, with which a line begins.
fn put_head(line: &mut Line, kind: u32, length: u16) {
    line.put_number(kind, b' ');
    line.put_number(u32::from(length), b' ');
}

// The kind's number, the length, and the settings that this kind has. Kinds are 0 to 6 here since these are the numbers that the line prints.
fn put_settings(line: &mut Line, settings: Settings, length: u16) {
    let mut put = |kind, floats: &[f32], numbers: &[u32]| put_kind(
        line, kind, length, floats, numbers,
    );
    match settings {
        Settings::VariableShape(asked) => {
            let floats = [
                asked.frequency,
                asked.master_frequency,
                asked.pw,
                asked.waveshape,
                asked.phase_modulation,
            ];
            let flags = [block::one_if(asked.sync), block::one_if(asked.phase_output)];
            put(1, &floats, &flags);
        }
        Settings::VariableSaw(asked) => {
            put(2, &[asked.frequency, asked.pw, asked.waveshape], &[])
        }
        Settings::SuperSquare(asked) => put(3, &[asked.frequency, asked.shape], &[]),
        Settings::NesTriangle(asked) => put(4, &[asked.frequency], &[asked.num_bits]),
        Settings::StringSynth { frequency, gain } => put(5, &[frequency, gain], &[]),
        Settings::Classic(asked) => { put(6, &[asked.frequency, asked.pw], &[asked.shape as u32]) }
    }
}

// The settings that are floats, and then those that are numbers.
fn put_kind(line: &mut Line, kind: u32, length: u16, floats: &[f32], numbers: &[u32]) {
    put_head(line, kind, length);
    for x in floats {
        line.put_word(floats::to_bits(*x), b' ');
    }
    line.put_words(numbers, b' ');
}
