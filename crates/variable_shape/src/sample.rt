// One sample of the variable shape, in the source's order: variable_shape_oscillator.rs, lines 95 to 210.
ghost use Rattle.std.specs.Prelude.{◌≡◌};
ghost use Rattle.variable_shape.specs.Sample.{master_step, after as state_after, finish as finished, sample_of};
ghost use Rattle.variable_shape.specs.Private.{Ready};

use crate::steps::Steps;
use crate::waveform::Waveform;
use crate::{State, output, waveform};
use block::Sample;
use edges::{Master, Passed, Slave};

// The master's step, line 113, which it takes only with sync.
pub(crate) fn master_step(sync: bool, master_phase: f32, master_frequency: f32) -> f32
    ensures { result ≡ master_step sync master_phase master_frequency }
{
    if sync {
        master_phase + master_frequency
    } else {
        master_phase
    }
}

// The state after a sample, with what the next one starts with: the source adds the waveform to it last, line 183. Without phase output the step
// of phase modulation is the state's own.
fn after(w: Waveform, p: Passed, steps: Steps) -> State
    ensures { result ≡ state_after w p.edge p.master_phase p.slave_phase p.high steps }
{
    State {
        master_phase: p.master_phase,
        slave_phase: p.slave_phase,
        next_sample: p.edge.next_sample + waveform::naive(w, p.slave_phase),
        previous_pw: steps.pw,
        high: p.high,
        master_frequency: steps.master_frequency,
        slave_frequency: steps.slave_frequency,
        pw: steps.pw,
        waveshape: steps.waveshape,
        phase_modulation: steps.phase_modulation,
    }
}

// The end of a sample: `s` is the state after it, and the phase and width that it puts out are those of `s`.
fn finish(sync: bool, phase_output: bool, p: Passed, s: State) -> Sample<State>
    ensures { result ≡ finished sync phase_output p.edge s p.cycles p.cuts }
{
    Sample {
        state: s,
        sample: output::output(
            sync,
            phase_output,
            s.master_phase,
            s.pw,
            s.phase_modulation,
            p.edge.this_sample,
        ),
        counts: edges::counts(p.cycles, p.edge, p.cuts),
    }
}

// With a reset or without: the master and the slave step, and the slave crosses as `edges` has it.
pub(crate) fn sample(s: State, steps: Steps, sync: bool, phase_output: bool) -> Sample<State>
    requires { Ready s steps }
    ensures { result ≡ sample_of sync phase_output s steps }
{
    let w = waveform::at(steps, s.previous_pw);
    let slave = Slave {
        phase: s.slave_phase,
        high: s.high,
        next_sample: s.next_sample,
        frequency: steps.slave_frequency,
    };
    let master = Master {
        phase: master_step(sync, s.master_phase, steps.master_frequency),
        frequency: steps.master_frequency,
    };
    let p = edges::pass(w, slave, sync, master);
    let t = after(w, p, steps);
    finish(sync, phase_output, p, t)
}
