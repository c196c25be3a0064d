// A sample in which nothing happens, neither a rise nor a wrap. Most samples are such, and this is their short way: no edge, and of the triangle's slopes
// only the one that the phase is on.
ghost use Rattle.std.specs.Prelude.{◌≡◌, true, not, ◌&&◌};
ghost use Rattle.std.specs.Float.Ieee.{le};
ghost use Rattle.floats.specs.F32.{◌⊕◌, one32};
ghost use Rattle.block.specs.Counting.{no_counts};
ghost use Rattle.variable_saw.specs.Sample.{wave_of, naive, sample_of};

use crate::steps::Steps;
use crate::{State, sample};
use block::Sample;
use edges::triangle;

// The two tests of a sample, lines 76 and 85, each negated as it stands, so that a NaN goes the same way here as there.
pub(crate) fn is_quiet(s: State, steps: Steps) -> bool
    ensures { result ≡ (not (not s.high && le steps.pw (s.phase ⊕ steps.frequency)) && not (le one32 (s.phase ⊕ steps.frequency))) }
{
    let phase = s.phase + steps.frequency;
    !(!s.high & (phase >= steps.pw)) & !(phase >= 1.0)
}

// compute_naive_sample, lines 115 to 135, from the steps.
fn naive_sample(phase: f32, steps: Steps) -> f32
    ensures { result ≡ naive phase (wave_of steps.pw steps.waveshape) }
{
    sample::notch_saw(phase, steps.pw) * (1.0 - steps.waveshape)
        + triangle::triangle_at(phase, steps.pw) * steps.waveshape
}

// The sample, under that test: the phase moves on, and the waveform is read there. Nothing is counted.
pub(crate) fn sample(s: State, steps: Steps) -> Sample<State>
    requires { (not (not s.high && le steps.pw (s.phase ⊕ steps.frequency)) && not (le one32 (s.phase ⊕ steps.frequency))) ≡ true }
    ensures made { result ≡ sample_of s steps.frequency steps.pw steps.waveshape }
    ensures counts { result.counts ≡ no_counts }
{
    let phase = s.phase + steps.frequency;
    Sample {
        state: State {
            phase,
            next_sample: 0.0 + naive_sample(phase, steps),
            previous_pw: steps.pw,
            high: s.high,
            frequency: steps.frequency,
            pw: steps.pw,
            waveshape: steps.waveshape,
        },
        sample: sample::put_out(s.next_sample),
        counts: block::none(),
    }
}
