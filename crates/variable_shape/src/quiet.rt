// A sample in which nothing happens, neither a reset nor a crossing. Most samples are such, and this is their short way: no edge, and of the triangle's
// slopes only the one that the phase is on.
ghost use Rattle.std.specs.Prelude.{◌≡◌, true, not, ◌&&◌, cond};
ghost use Rattle.std.specs.Float.Ieee.{lt, le};
ghost use Rattle.floats.specs.F32.{◌⊕◌, one32};
ghost use Rattle.block.specs.Counting.{no_counts};
ghost use Rattle.variable_shape.specs.Sample.{master_step, sample_of};

use crate::steps::Steps;
use crate::{State, output, sample, waveform};
use block::Sample;

// No reset, line 114, and no crossing, lines 146 and 161. Sync and phase output go beside the steps, since a block does not step them.
pub(crate) fn is_quiet(s: State, steps: Steps, sync: bool) -> bool
    ensures { result ≡ (not (sync && le one32 (master_step sync s.master_phase steps.master_frequency)) && cond s.high (lt (s.slave_phase ⊕ steps.slave_frequency) one32) (lt (s.slave_phase ⊕ steps.slave_frequency) steps.pw)) }
{
    let master_phase = sample::master_step(sync, s.master_phase, steps.master_frequency);
    !(sync & (master_phase >= 1.0))
        & edges::is_uncrossed(s.high, s.slave_phase + steps.slave_frequency, steps.pw)
}

// The sample, under that test: the phases move on, and the waveform is read where the slave's is. Nothing is counted.
pub(crate) fn sample(s: State, steps: Steps, sync: bool, phase_output: bool) -> Sample<State>
    requires { (not (sync && le one32 (master_step sync s.master_phase steps.master_frequency)) && cond s.high (lt (s.slave_phase ⊕ steps.slave_frequency) one32) (lt (s.slave_phase ⊕ steps.slave_frequency) steps.pw)) ≡ true }
    ensures made { result ≡ sample_of sync phase_output s steps }
    ensures counts { result.counts ≡ no_counts }
{
    let master_phase = sample::master_step(sync, s.master_phase, steps.master_frequency);
    let slave_phase = s.slave_phase + steps.slave_frequency;
    Sample {
        sample: output::output(
            sync,
            phase_output,
            master_phase,
            steps.pw,
            steps.phase_modulation,
            s.next_sample,
        ),
        state: State {
            master_phase,
            slave_phase,
            next_sample: 0.0 + waveform::naive_at(steps, slave_phase),
            previous_pw: steps.pw,
            high: s.high,
            master_frequency: steps.master_frequency,
            slave_frequency: steps.slave_frequency,
            pw: steps.pw,
            waveshape: steps.waveshape,
            phase_modulation: steps.phase_modulation,
        },
        counts: block::none(),
    }
}
