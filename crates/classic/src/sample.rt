// One sample of the classic oscillator, in the source's order: oscillator.rs, lines 91 to 229.
ghost use Rattle.std.specs.Prelude.{◌≡◌};
ghost use Rattle.floats.specs.F32.{◌⊖◌, ◌⊘◌, one32};
ghost use Rattle.classic.specs.Sample.{triangle_at, square_at, naive, finish as finished, sample_of};

use crate::{OscillatorShape, State, edges_of, output, shapes};
use block::Sample;
use edges::Edge;

// Lines 169 to 173: up while `high`, and down again to 0 at the end of the cycle.
fn triangle_at(phase: f32, high: bool, slope_up: f32, slope_down: f32, pw: f32) -> f32
    ensures { result ≡ triangle_at slope_up slope_down pw phase high }
{
    if high {
        phase * slope_up
    } else {
        1.0 - (phase - pw) * slope_down
    }
}

// The same with the slopes of lines 141 and 142: the one is worked out that the phase is on. Through `triangle_at` both would be, at a division each.
fn slope_at(phase: f32, high: bool, pw: f32) -> f32
    ensures { result ≡ triangle_at (one32 ⊘ pw) (one32 ⊘ (one32 ⊖ pw)) pw phase high }
{
    if high {
        phase * (1.0 / pw)
    } else {
        1.0 - (phase - pw) * (1.0 / (1.0 - pw))
    }
}

// Line 203. Other oscillators have the same line of their own source, and a shared function would be no shorter.
fn square_at(phase: f32, pw: f32) -> f32
    ensures { result ≡ square_at pw phase }
{
    if phase < pw { 0.0 } else { 1.0 }
}

// The waveform without its smoothing, that the next sample starts with.
pub(crate) fn naive_sample(phase: f32, high: bool, shape: OscillatorShape, pw: f32) -> f32
    ensures { result ≡ naive shape pw phase high }
{
    match shape {
        OscillatorShape::ImpulseTrain | OscillatorShape::Saw => phase,
        OscillatorShape::Triangle => triangle_at(phase, high, 2.0, 2.0, pw),
        OscillatorShape::Slope => slope_at(phase, high, pw),
        _ => square_at(phase, pw),
    }
}

// The end of a sample: what the next one starts with gets the waveform, lines 126, 169 and 203. The factors of the impulse train stay.
fn finish(
    s: State,
    frequency: f32,
    step: f32,
    shape: OscillatorShape,
    cycles: u32,
    e: Edge,
) -> Sample<State>
    ensures { result ≡ finished shape s frequency step cycles e }
{
    let pw = shapes::width_of(shape, step);
    let next_sample = e.next_sample + naive_sample(e.phase, e.high, shape, pw);
    let o = output::put_out(s, shape, frequency, e.this_sample);
    Sample {
        sample: o.sample,
        state: State {
            phase: e.phase,
            next_sample,
            lp_state: o.lp_state,
            hp_state: o.hp_state,
            high: e.high,
            frequency,
            pw: shapes::kept_width(shape, step, s.pw),
            ..s
        },
        counts: edges::counts(cycles, e, 0),
    }
}

// Lines 91, 92 and 111, and then by shape. Cycles are the wraps, and there is no sync, so no cuts.
pub(crate) fn sample(s: State, frequency: f32, step: f32, shape: OscillatorShape) -> Sample<State>
    ensures { result ≡ sample_of shape s frequency step }
{
    let start = edges::start(s.phase + frequency, s.high, s.next_sample);
    let cycles = block::one_if(start.phase >= 1.0);
    let e = edges_of::edges_of(start, shape, frequency, shapes::width_of(shape, step));
    finish(s, frequency, step, shape, cycles, e)
}
