// Test program: the figures of the request that are run, each with its name: how long a block may be, how long a registration is, how high a string goes, where the saw drifts, and
// which sample rates the classic oscillator starts at.
#![tactic(auto)]

use block::{Counts, Refusal};
use classic::OscillatorShape;

type Text = testing::Line<1024>;

// One line for each figure, in the request's order, and all of them written at once.
fn main(rt: HostRuntime) {
    let mut text = Text::new();
    put_pairs(&mut text);
    put_singles(&mut text);
    put_strings(&mut text);
    put_drift(&mut text);
    put_rates(&mut text);
    streams::write(rt, b"boundaries", text.as_bytes());
}

// How long a block may be, of the oscillators with a master and a slave, at the highest pitch that each plays unclipped.
fn put_pairs(text: &mut Text) {
    put_lengths(text, b"super square", |out| {
        let parameters = super_square::Parameters {
            frequency: 0.25,
            shape: 0.5,
        };
        super_square::render(&mut super_square::init(), parameters, out)
    });
    put_lengths(text, b"variable shape", |out| {
        let parameters = variable_shape::Parameters {
            master_frequency: 0.25,
            frequency: 0.25,
            pw: 0.5,
            waveshape: 0.5,
            phase_modulation: 0.0,
            sync: true,
            phase_output: true,
        };
        variable_shape::render(&mut variable_shape::init(), parameters, out)
    });
}

// And of the others.
fn put_singles(text: &mut Text) {
    put_lengths(text, b"variable saw", |out| {
        variable_saw::render(&mut variable_saw::init(), saw_at(0.25), out)
    });
    put_lengths(text, b"NES triangle", |out| {
        let parameters = nes_triangle::Parameters {
            frequency: 0.25,
            num_bits: 5,
        };
        nes_triangle::render(&mut nes_triangle::init(), parameters, out)
    });
    put_lengths(text, b"string synth", |out| {
        string_synth::render(&mut string_synth::init(), string_at(&[0.0; 7], 0.5), out)
    });
    put_lengths(text, b"classic", |out| {
        let mut state = classic::new();
        classic::init(&mut state, 48000.0)?;
        let parameters = classic::Parameters {
            frequency: 0.25,
            pw: 0.5,
            shape: OscillatorShape::ImpulseTrain,
        };
        classic::render(&mut state, parameters, out)
    });
}

// The saw's parameters at a frequency.
fn saw_at(frequency: f32) -> variable_saw::Parameters {
    variable_saw::Parameters {
        frequency,
        pw: 0.5,
        waveshape: 0.0,
    }
}

// The string's, of a registration.
fn string_at(registration: &[f32], frequency: f32) -> string_synth::Parameters<'_> {
    string_synth::Parameters {
        frequency,
        registration,
        gain: 1.0,
    }
}

// The answer to the longest block, and to one with a sample more.
fn put_lengths<F: Fn(&mut [f32]) -> Result<Counts, Refusal>>(
    text: &mut Text,
    whose: &[u8],
    render: F,
)
    requires { F.IsAlwaysCallable render }
{
    put_answer(text, whose, b", 4,096 samples: ", render(&mut [0.0; 4096]));
    put_answer(text, whose, b", 4,097 samples: ", render(&mut [0.0; 4097]));
}

// How long a registration is, and how high a string goes.
fn put_strings(text: &mut Text) {
    put_string(text, b", registration of 6: ", &[0.0; 6], 0.5);
    put_string(text, b", registration of 8: ", &[0.0; 8], 0.5);
    put_string(text, b", frequency 0.5: ", &[0.0; 7], 0.5);
    let above = floats::from_bits(0x3f00_0001);
    put_string(text, b", the next float up: ", &[0.0; 7], above);
}

// The answer to a block of 64 samples.
fn put_string(text: &mut Text, what: &[u8], registration: &[f32], frequency: f32) {
    let parameters = string_at(registration, frequency);
    let answer = string_synth::render(&mut string_synth::init(), parameters, &mut [0.0; 64]);
    put_answer(text, b"string synth", what, answer);
}

// Where the saw drifts: 01's Drift figure, from 12290525/2^26 down to MIN_FREQUENCY over 4,096 samples.
fn put_drift(text: &mut Text) {
    let mut state = variable_saw::init();
    state.frequency = floats::from_bits(0x3e3b_89dd);
    let drift = variable_saw::render(&mut state, saw_at(0.000001), &mut [0.0; 4096]);
    put_answer(text, b"variable saw", b", Drift: ", drift);
    put(
        text,
        b"variable saw",
        b", index of Drift: ",
        block::index(drift),
    );
}

// The lowest and the highest sample rate, and the floats beside them.
fn put_rates(text: &mut Text) {
    put_rate(text, b", sample rate 8,000: ", 8000.0);
    let below = floats::from_bits(0x45f9_ffff);
    put_rate(text, b", the next float down: ", below);
    put_rate(text, b", sample rate 384,000: ", 384000.0);
    let above = floats::from_bits(0x48bb_8001);
    put_rate(text, b", the next float up: ", above);
}

// The answer to a start.
fn put_rate(text: &mut Text, what: &[u8], sample_rate: f32) {
    let answer = classic::init(&mut classic::new(), sample_rate);
    put_answer(text, b"classic", what, answer);
}

// A figure's name and its answer, as one line.
fn put_answer<T: Copy>(text: &mut Text, whose: &[u8], what: &[u8], answer: Result<T, Refusal>) {
    put(text, whose, what, block::number(answer));
}

// Likewise with its number.
fn put(text: &mut Text, whose: &[u8], what: &[u8], number: u32) {
    text.put(whose);
    text.put(what);
    text.put_number(number, b'\n');
}
