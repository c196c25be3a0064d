// A sample with neither a peak nor a new step. At a low pitch most samples are such, and this is their short way: the step's level is held from sample to
// sample, and two tests of floats tell that the step is still the same.
ghost use Rattle.std.specs.Prelude.{◌≡◌, ◌+◌, ◌<◌, true, not, ◌&&◌};
ghost use Rattle.std.specs.Float.Ieee.{le, lt};
ghost use Rattle.floats.specs.F32.{◌⊕◌, ◌⊗◌, half32, one32};
ghost use Rattle.block.specs.Counting.{no_counts};
ghost use Rattle.nes_triangle.specs.Sample.{sample_of};
ghost use Rattle.nes_triangle.specs.Private.{Below, Ready, Holds};

use crate::depth::Depth;
use crate::{State, sample, step};
use block::Sample;

// A state's step and the level that it has, each as a float.
#[derive(Clone, Copy)]
pub struct Held {
    pub at: f32,
    pub level: f32,
}

// Both are worked out anew only after a sample that may have changed the step. Depth, state and frequency are the block's, the last sample's and this one's: they
// travel together, and no further than through these functions.
pub(crate) fn hold(d: Depth, s: State) -> Held
    requires { Below s.step (d.top + 1) × (d.top < 65536) }
    ensures { Holds d s result }
{
    let step = s.step as u32;
    Held {
        at: step::small(step),
        level: step::small(sample::nes_level(step, d.half, d.top)),
    }
}

// The whole part of line 78 is the state's step where the product lies between that step and the next. Of line 68 the test is negated as it stands.
pub(crate) fn is_quiet(d: Depth, s: State, h: Held, frequency: f32) -> bool
    ensures { result ≡ (le h.at ((s.phase ⊕ frequency) ⊗ d.num_steps_f) && lt ((s.phase ⊕ frequency) ⊗ d.num_steps_f) (h.at ⊕ one32) && not (s.ascending && le half32 (s.phase ⊕ frequency))) }
{
    let phase = s.phase + frequency;
    let x = phase * d.num_steps_f;
    (h.at <= x) & (x < h.at + 1.0) & !(s.ascending & (phase >= 0.5))
}

// The sample, under that test: the phase moves on, and both triangles are read there. Nothing is counted.
pub(crate) fn sample(d: Depth, s: State, h: Held, frequency: f32) -> Sample<State>
    requires ready { Ready d s frequency }
    requires held_of_step { Holds d s h }
    requires step_stays { (le h.at ((s.phase ⊕ frequency) ⊗ d.num_steps_f) && lt ((s.phase ⊕ frequency) ⊗ d.num_steps_f) (h.at ⊕ one32) && not (s.ascending && le half32 (s.phase ⊕ frequency))) ≡ true }
    ensures made { result ≡ sample_of d s frequency }
    ensures counts { result.counts ≡ no_counts }
{
    let phase = s.phase + frequency;
    let g = sample::fade(d, frequency);
    let next_sample = 0.0 + g.nes_gain * h.level + g.tri_gain * sample::tri_level(phase);
    Sample {
        state: State {
            phase,
            next_sample,
            step: s.step,
            ascending: s.ascending,
            frequency,
        },
        sample: s.next_sample * d.scale - 1.0,
        counts: block::none(),
    }
}
