// One sample of the variable saw, in the source's order: variable_saw_oscillator.rs, lines 62 to 110.
ghost use Rattle.std.specs.Prelude.{◌≡◌};
ghost use Rattle.floats.specs.F32.{◌⊕◌, ◌⊖◌, ◌⊗◌, ◌⊘◌, one32, two32};
ghost use Rattle.variable_saw.specs.Sample.{wave_of, notch_depth, notch_saw, naive, rise_of, wrap_of, edge_of, finish as finished, sample_of};

use crate::State;
use crate::steps::Steps;
use block::Sample;
use edges::{Edge, triangle};

const VARIABLE_SAW_NOTCH_DEPTH: f32 = 0.2;

// The waveform of one sample, from its steps of pulse width and waveshape. The frequency goes beside it, as in specs/: it does
// not show in the waveform.
#[derive(Clone, Copy)]
pub struct Wave {
    pub pw: f32,
    pub slope_up: f32,
    pub slope_down: f32,
    pub triangle_amount: f32,
    pub notch_amount: f32,
}

impl Wave {
    // Lines 69 to 72. A slope is an infinity where the width is 0 or 1; a width in its room is neither.
    fn new(steps: Steps) -> Self
        ensures { result ≡ wave_of steps.pw steps.waveshape }
    {
        Wave {
            pw: steps.pw,
            slope_up: 1.0 / steps.pw,
            slope_down: 1.0 / (1.0 - steps.pw),
            triangle_amount: steps.waveshape,
            notch_amount: 1.0 - steps.waveshape,
        }
    }
}

// A saw that stops at the width, lines 123 to 127: from there on it stands above 1 by the notch's depth.
pub(crate) fn notch_saw(phase: f32, pw: f32) -> f32
    ensures { result ≡ notch_saw phase pw }
{
    if phase < pw {
        phase
    } else {
        1.0 + VARIABLE_SAW_NOTCH_DEPTH
    }
}

// The waveform without its smoothing, lines 115 to 135: that saw and the triangle, mixed.
fn compute_naive_sample(phase: f32, w: Wave) -> f32
    ensures { result ≡ naive phase w }
{
    notch_saw(phase, w.pw) * w.notch_amount
        + triangle::triangle(phase, w.pw, w.slope_up, w.slope_down) * w.triangle_amount
}

// Up through the width, lines 77 to 84. The phase may have passed 1 too: it then stays there until the next sample. t is an infinity or a NaN where
// the width has moved up by just the frequency, as in the source.
fn rise(e: Edge, w: Wave, frequency: f32, previous_pw: f32) -> Edge
    ensures { result ≡ rise_of w frequency previous_pw e }
{
    let step = triangle::triangle_step(w.slope_up, w.slope_down, frequency, w.triangle_amount);
    let notch = (VARIABLE_SAW_NOTCH_DEPTH + 1.0 - w.pw) * w.notch_amount;
    let t = triangle::rise_time(e.phase, w.pw, previous_pw, frequency);
    let this_sample = e.this_sample + notch * polyblep::this_blep_sample(t)
        - step * polyblep::this_integrated_blep_sample(t);
    let next_sample = e.next_sample + notch * polyblep::next_blep_sample(t)
        - step * polyblep::next_integrated_blep_sample(t);
    edges::risen(e, t, this_sample, next_sample)
}

// Down through 1, where the phase wraps, lines 86 to 94. The test lets a low phase in where the width is above 1 or no number, as none in its room is: that
// would be no fall.
fn wrap(e: Edge, w: Wave, frequency: f32) -> Edge
    ensures { result ≡ wrap_of w frequency e }
{
    let phase = e.phase - 1.0;
    let step = triangle::triangle_step(w.slope_up, w.slope_down, frequency, w.triangle_amount);
    let notch = (VARIABLE_SAW_NOTCH_DEPTH + 1.0) * w.notch_amount;
    let t = phase / frequency;
    let this_sample = e.this_sample - notch * polyblep::this_blep_sample(t)
        + step * polyblep::this_integrated_blep_sample(t);
    let next_sample = e.next_sample - notch * polyblep::next_blep_sample(t)
        + step * polyblep::next_integrated_blep_sample(t);
    edges::wrapped(e, phase, t, this_sample, next_sample)
}

// The step, lines 63, 64 and 74.
fn edge(s: State, frequency: f32) -> Edge
    ensures { result ≡ edge_of s frequency }
{
    edges::start(s.phase + frequency, s.high, s.next_sample)
}

// What is put out goes from -1 to 1 with the notch's depth: line 107.
pub(crate) fn put_out(this_sample: f32) -> f32
    ensures { result ≡ (two32 ⊗ this_sample ⊖ one32) ⊘ (one32 ⊕ notch_depth) }
{
    (2.0 * this_sample - 1.0) / (1.0 + VARIABLE_SAW_NOTCH_DEPTH)
}

// The end of a sample, lines 97 to 107: what the next one starts with gets the waveform.
fn finish(e: Edge, w: Wave, frequency: f32, cycles: u32) -> Sample<State>
    ensures { result ≡ finished w frequency cycles e }
{
    Sample {
        state: State {
            phase: e.phase,
            next_sample: e.next_sample + compute_naive_sample(e.phase, w),
            previous_pw: w.pw,
            high: e.high,
            frequency,
            pw: w.pw,
            waveshape: w.triangle_amount,
        },
        sample: put_out(e.this_sample),
        counts: edges::counts(cycles, e, 0),
    }
}

// Lines 76 and 85: a rise or else a wrap, never both. Cycles are the wraps, and there is no sync, so no cuts.
pub(crate) fn sample(s: State, steps: Steps) -> Sample<State>
    ensures { result ≡ sample_of s steps.frequency steps.pw steps.waveshape }
{
    let frequency = steps.frequency;
    let w = Wave::new(steps);
    let e = edge(s, frequency);
    if !e.high & (e.phase >= steps.pw) {
        finish(rise(e, w, frequency, s.previous_pw), w, frequency, 0)
    } else if e.phase >= 1.0 {
        finish(wrap(e, w, frequency), w, frequency, 1)
    } else {
        finish(e, w, frequency, 0)
    }
}
