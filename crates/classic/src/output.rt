// What a sample puts out, and what the filters carry on, in the source's order: oscillator.rs, lines 128 to 135, 174 and 205 to 228.
ghost use Rattle.std.specs.Prelude.{◌≡◌};
ghost use Rattle.classic.specs.Output.{plain, impulse_train, integrated, square_bright, output_of};
ghost use Rattle.classic.specs.Private.{low_passed};

use crate::{OscillatorShape, State};

#[derive(Clone, Copy)]
pub struct Output {
    pub sample: f32,
    pub lp_state: f32,
    pub hp_state: f32,
}

// Lines 129, 174, 225 and 226: from -1 to 1, and no filter.
fn plain_output(s: State, this_sample: f32) -> Output
    ensures { result ≡ plain s this_sample }
{
    Output {
        sample: 2.0 * this_sample - 1.0,
        lp_state: s.lp_state,
        hp_state: s.hp_state,
    }
}

// Lines 131 to 134: the saw's differences through a low-pass.
fn impulse_train(s: State, this_sample: f32) -> Output
    ensures { result ≡ impulse_train s this_sample }
{
    let lp_state = s.lp_state
        + s.impulse_train_lp_coeff * ((s.hp_state - this_sample) - s.lp_state);
    Output {
        sample: s.impulse_train_gain * lp_state,
        lp_state,
        hp_state: this_sample,
    }
}

// Lines 209, 215 and 221: the integrator of three squares.
fn integrate(lp_state: f32, coefficient: f32, x: f32) -> f32
    ensures { result ≡ integrated lp_state coefficient x }
{
    lp_state + coefficient * (x - lp_state)
}

// Lines 219 to 222: what the low-pass leaves, a high-pass.
fn square_bright(s: State, frequency: f32, this_sample: f32) -> Output
    ensures { result ≡ square_bright s frequency this_sample }
{
    let x = 2.0 * this_sample - 1.0;
    let lp_state = integrate(s.lp_state, frequency * 2.0, x);
    Output {
        sample: (x - lp_state) * 0.5,
        lp_state,
        hp_state: s.hp_state,
    }
}

// Lines 213 to 216, and 207 to 210 with another coefficient and gain: a low-pass.
fn low_pass(s: State, coefficient: f32, gain: f32, this_sample: f32) -> Output
    ensures { result ≡ low_passed s coefficient gain this_sample }
{
    let lp_state = integrate(s.lp_state, coefficient, gain * (this_sample - 0.5));
    Output {
        sample: lp_state,
        lp_state,
        hp_state: s.hp_state,
    }
}

// By shape. The triangle's low-pass is the lower one, which makes a triangle of the square.
pub(crate) fn put_out(s: State, shape: OscillatorShape, frequency: f32, this_sample: f32) -> Output
    ensures { result ≡ output_of shape s frequency this_sample }
{
    match shape {
        OscillatorShape::ImpulseTrain => impulse_train(s, this_sample),
        OscillatorShape::SquareBright => square_bright(s, frequency, this_sample),
        OscillatorShape::SquareDark => low_pass(s, frequency * 2.0, 4.0, this_sample),
        OscillatorShape::SquareTriangle => low_pass(s, frequency * 0.0625, 128.0, this_sample),
        _ => plain_output(s, this_sample),
    }
}
