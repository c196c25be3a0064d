// One sample of the super square, in the source's order: super_square_oscillator.rs, lines 60 to 131.
ghost use Rattle.std.specs.Prelude.{◌≡◌};
ghost use Rattle.floats.specs.F32.{half32};
ghost use Rattle.super_square.specs.Sample.{level as square_of, rise_of, fall_of, after as state_after, finish as finished, sample_of};
ghost use Rattle.super_square.specs.Private.{Ready, rises, falls};

use crate::State;
use block::Sample;
use edges::{Crossing, Edge, Master, Passed, Slave};

// The square at one sample, which rises at 0.5: its crossings need the slave's step.
#[derive(Clone, Copy)]
pub struct Square {
    pub slave_frequency: f32,
}

impl Crossing for Square {
    ghost width_of = { λ w. half32 };

    ghost level_of = { λ w. square_of };

    ghost rise_of = { λ w. rise_of w.slave_frequency };

    ghost fall_of = { λ w. fall_of w.slave_frequency };

    fn width(self) -> f32 {
        0.5
    }

    fn level(self, phase: f32) -> f32 {
        level(phase)
    }

    // Lines 103 to 106.
    fn rise(self, e: Edge) -> Edge {
        let t = (e.phase - 0.5) / self.slave_frequency;
        let this_sample = e.this_sample + polyblep::this_blep_sample(t);
        let next_sample = e.next_sample + polyblep::next_blep_sample(t);
        edges::risen(e, t, this_sample, next_sample)
    }

    // Lines 113 to 117: t is taken from the wrapped phase.
    fn fall(self, e: Edge) -> Edge {
        let phase = e.phase - 1.0;
        let t = phase / self.slave_frequency;
        let this_sample = e.this_sample - polyblep::this_blep_sample(t);
        let next_sample = e.next_sample - polyblep::next_blep_sample(t);
        edges::fallen(e, phase, t, this_sample, next_sample)
    }

    ghost rises = { λ w. rises w.slave_frequency };

    ghost falls = { λ w. falls w.slave_frequency };
}

// The square without its smoothing, lines 90 and 127. The source has no function for it, and writes it twice.
// Other oscillators have the same line of their own source, and a shared function would be no shorter.
pub(crate) fn level(phase: f32) -> f32
    ensures { result ≡ square_of phase }
{
    if phase < 0.5 { 0.0 } else { 1.0 }
}

// The state after a sample, with what the next one starts with: the source adds the square to it last, line 127.
fn after(p: Passed, master_frequency: f32, slave_frequency: f32) -> State
    ensures { result ≡ state_after p.edge p.master_phase p.slave_phase p.high master_frequency slave_frequency }
{
    State {
        master_phase: p.master_phase,
        slave_phase: p.slave_phase,
        next_sample: p.edge.next_sample + level(p.slave_phase),
        high: p.high,
        master_frequency,
        slave_frequency,
    }
}

// The end of a sample: `s` is the state after it. What is put out goes from -1 to 1, line 128.
fn finish(p: Passed, s: State) -> Sample<State>
    ensures { result ≡ finished p.edge s p.cycles p.cuts }
{
    Sample {
        state: s,
        sample: 2.0 * p.edge.this_sample - 1.0,
        counts: edges::counts(p.cycles, p.edge, p.cuts),
    }
}

// With a reset or without: both frequencies step, lines 65 to 71, and the slave crosses as `edges` has it.
pub(crate) fn sample(s: State, master_frequency: f32, slave_frequency: f32) -> Sample<State>
    requires { Ready s master_frequency slave_frequency }
    ensures { result ≡ sample_of s master_frequency slave_frequency }
{
    let slave = Slave {
        phase: s.slave_phase,
        high: s.high,
        next_sample: s.next_sample,
        frequency: slave_frequency,
    };
    let square = Square { slave_frequency };
    let master = Master {
        phase: s.master_phase + master_frequency,
        frequency: master_frequency,
    };
    let p = edges::pass(square, slave, true, master);
    let t = after(p, master_frequency, slave_frequency);
    finish(p, t)
}
