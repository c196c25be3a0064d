// A sample in which nothing happens, neither a change of `high` nor a wrap. Most samples are such, and this is their short way: no edge, and nothing to count.
ghost use Rattle.std.specs.Prelude.{◌≡◌, true};
ghost use Rattle.floats.specs.F32.{◌⊕◌};
ghost use Rattle.block.specs.Counting.{no_counts};
ghost use Rattle.classic.specs.Shapes.{width_of};
ghost use Rattle.classic.specs.Sample.{sample_of};
ghost use Rattle.classic.specs.Private.{turns_of, quiet_of};

use crate::{OscillatorShape, State, output, sample, shapes};
use block::Sample;

// The tests of lines 144 and 180, as they stand, so that a NaN goes the same way here as there. The impulse train and the saw ask nothing of the width.
fn turns(shape: OscillatorShape, high: bool, phase: f32, pw: f32) -> bool
    ensures { result ≡ turns_of shape high phase pw }
{
    match shape {
        OscillatorShape::ImpulseTrain | OscillatorShape::Saw => false,
        OscillatorShape::Triangle | OscillatorShape::Slope => high ^ (phase < pw),
        _ => high ^ (phase >= pw),
    }
}

// With those of lines 115, 154 and 190. Frequency, step and shape go one by one, here and in a sample, since the shape says what the step is: a width, or
// nothing.
pub(crate) fn is_quiet(s: State, frequency: f32, step: f32, shape: OscillatorShape) -> bool
    ensures { result ≡ quiet_of shape s.high (s.phase ⊕ frequency) (width_of shape step) }
{
    let phase = s.phase + frequency;
    let pw = shapes::width_of(shape, step);
    !turns(shape, s.high, phase, pw) & !(phase >= 1.0)
}

// The sample, under that test: the phase moves on, and the waveform is read there. Nothing is counted.
pub(crate) fn sample(s: State, frequency: f32, step: f32, shape: OscillatorShape) -> Sample<State>
    requires { quiet_of shape s.high (s.phase ⊕ frequency) (width_of shape step) ≡ true }
    ensures made { result ≡ sample_of shape s frequency step }
    ensures counts { result.counts ≡ no_counts }
{
    let phase = s.phase + frequency;
    let pw = shapes::width_of(shape, step);
    let next_sample = 0.0 + sample::naive_sample(phase, s.high, shape, pw);
    let o = output::put_out(s, shape, frequency, s.next_sample);
    Sample {
        sample: o.sample,
        state: State {
            phase,
            next_sample,
            lp_state: o.lp_state,
            hp_state: o.hp_state,
            frequency,
            pw: shapes::kept_width(shape, step, s.pw),
            ..s
        },
        counts: block::none(),
    }
}
