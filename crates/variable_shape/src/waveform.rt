// The waveform at one sample: how much of it is square and how much triangle, and the triangle's slopes. variable_shape_oscillator.rs, lines 107 to 110
// and 214 to 234.
ghost use Rattle.std.specs.Prelude.{◌≡◌, Float};
ghost use Rattle.variable_shape.specs.Waveform.{waveform_of, square_of, naive_of};

use crate::steps::Steps;
use edges::triangle;

// What the crossings of the sample need of its steps, and the width of the sample before.
#[derive(Clone, Copy)]
pub struct Waveform {
    pub slave_frequency: f32,
    pub previous_pw: f32,
    pub pw: f32,
    pub square_amount: f32,
    pub triangle_amount: f32,
    pub slope_up: f32,
    pub slope_down: f32,
}

// Lines 107 to 110. Of square and triangle at most one is above 0: square from a waveshape of 0.5 up, triangle below it, and the rest is saw.
pub(crate) fn at(steps: Steps, previous_pw: f32) -> Waveform
    ensures { result ≡ waveform_of steps previous_pw }
{
    Waveform {
        slave_frequency: steps.slave_frequency,
        previous_pw,
        pw: steps.pw,
        square_amount: floats::max(steps.waveshape - 0.5, 0.0) * 2.0,
        triangle_amount: floats::max(1.0 - steps.waveshape * 2.0, 0.0),
        slope_up: 1.0 / steps.pw,
        slope_down: 1.0 / (1.0 - steps.pw),
    }
}

// Line 224. The width itself is high. Other oscillators have the same line of their own source, and a shared function would be no shorter.
fn square(phase: f32, pw: f32) -> f32
    ensures { result ≡ square_of phase pw }
{
    if phase < pw { 0.0 } else { 1.0 }
}

// The source's compute_naive_sample: the waveform without its smoothing. From the saw some way to the square, and from there some way to the triangle.
pub(crate) fn naive(w: Waveform, phase: f32) -> f32
    ensures { result ≡ naive_of w phase }
{
    let saw = phase + (square(phase, w.pw) - phase) * w.square_amount;
    saw + (triangle::triangle(phase, w.pw, w.slope_up, w.slope_down) - saw) * w.triangle_amount
}

// The same from the steps, with the one slope worked out that the phase is on: the width of the sample before does not show in it.
pub(crate) fn naive_at(steps: Steps, phase: f32) -> f32
    ensures { (previousPw : Float) → result ≡ naive_of (waveform_of steps previousPw) phase }
{
    let square_amount = floats::max(steps.waveshape - 0.5, 0.0) * 2.0;
    let triangle_amount = floats::max(1.0 - steps.waveshape * 2.0, 0.0);
    let saw = phase + (square(phase, steps.pw) - phase) * square_amount;
    saw + (triangle::triangle_at(phase, steps.pw) - saw) * triangle_amount
}
