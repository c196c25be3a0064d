// The variable shape as a voice of `block`: what is asked of its state and parameters, their glides, and one sample.
ghost use Rattle.std.specs.Prelude.{◌≡◌, true, [], ◌∷◌, ⊤};
ghost use Rattle.rooms.proofs.Guard.{glides_of};
ghost use Rattle.block.specs.Checks.{◌unless◌};
ghost use Rattle.variable_shape.specs.Sample.{sample_at};
ghost use Rattle.variable_shape.specs.Block.{state_in, parameters_in, interpolators, rooms};
ghost use Rattle.variable_shape.specs.Private.{Valid, courses, modulation_room};

use crate::{Parameters, State, quiet, sample, steps};
use block::{Counts, Refusal, Sample, Voice};
use parameter_interpolator::ParameterInterpolator;
use ranges::targets;
use rooms::{Glides, Room};

impl Voice for Parameters {
    type State = State;

    // Nothing is kept beside the state.
    type Hand = ();

    ghost checks = { λ v s. 3 unless state_in s ∷ 4 unless parameters_in v.master_frequency v.frequency v.pw v.waveshape v.phase_modulation ∷ [] };

    ghost moving = { λ v s n. interpolators s v.master_frequency v.frequency v.pw v.waveshape v.phase_modulation v.phase_output n };

    ghost rooms = { λ v. rooms v.phase_output };

    ghost make = { λ v. sample_at v.sync v.phase_output };

    ghost valid = { λ v. Valid };

    ghost fits = { λ v s hand. ⊤ };

    fn check(self, state: State) -> Result<(), Refusal> {
        if !state_in(state) {
            return Err(Refusal::BadState);
        }
        if !parameters_in(self) {
            return Err(Refusal::BadParam);
        }
        Ok(())
    }

    fn glides(self, state: State, n: u32) -> Glides {
        glides(state, self, n)
    }

    fn places(self) -> [Room; 5] {
        [
            Room::Frequency,
            Room::Frequency,
            Room::PulseWidth,
            Room::Waveshape,
            modulation_room(self.phase_output),
        ]
    }

    fn ready(self, state: State) {}

    // In most samples nothing happens, and nothing is counted: they go the short way, which leaves the counts alone.
    fn sample(
        self,
        state: State,
        hand: &mut (),
        steps: [ParameterInterpolator; 5],
        held: f32,
        counts: Counts,
    ) -> Sample<State> {
        let steps = steps::at(steps, self.phase_output, state.phase_modulation);
        if quiet::is_quiet(state, steps, self.sync) {
            let made = quiet::sample(state, steps, self.sync, self.phase_output);
            Sample { counts, ..made }
        } else {
            let made = sample::sample(state, steps, self.sync, self.phase_output);
            Sample {
                counts: block::sum(counts, made.counts),
                ..made
            }
        }
    }
}

// 01's ranges of a state. `next_sample` may have any bits.
fn state_in(s: State) -> bool
    ensures { result ≡ state_in s }
{
    ranges::phase_in(s.master_phase)
        & ranges::phase_in(s.slave_phase)
        & ranges::unit_in(s.previous_pw)
        & ranges::frequency_in(s.master_frequency)
        & ranges::frequency_in(s.slave_frequency)
        & ranges::unit_in(s.pw)
        & ranges::waveshape_in(s.waveshape)
        & ranges::modulation_or_gain_in(s.phase_modulation)
}

// 01's ranges of a call's parameters: all of them, also where sync or phase output is off.
fn parameters_in(p: Parameters) -> bool
    ensures { result ≡ parameters_in p.master_frequency p.frequency p.pw p.waveshape p.phase_modulation }
{
    ranges::parameter_frequency_in(p.master_frequency)
        & ranges::parameter_frequency_in(p.frequency)
        & ranges::unit_in(p.pw)
        & ranges::unit_in(p.waveshape)
        & ranges::within(-8.0, 8.0, p.phase_modulation)
}

// All five parameters on their way to their targets, over n samples, as the source makes them, and whether all are safe: a waveshape and phase modulation
// always are. Without phase output the last place is not used.
fn glides(s: State, p: Parameters, n: u32) -> Glides
    ensures { result ≡ glides_of n (courses s p true) [] }
{
    let master_target = targets::clip(p.master_frequency);
    let slave_target = targets::clip(p.frequency);
    let pw_target = targets::clamp_width(slave_target, p.pw);
    let safe = rooms::safe(Room::Frequency, s.master_frequency, master_target)
        & rooms::safe(Room::Frequency, s.slave_frequency, slave_target)
        & rooms::safe(Room::PulseWidth, s.pw, pw_target);
    Glides {
        interpolators: [
            ParameterInterpolator::new(s.master_frequency, master_target, n),
            ParameterInterpolator::new(s.slave_frequency, slave_target, n),
            ParameterInterpolator::new(s.pw, pw_target, n),
            ParameterInterpolator::new(s.waveshape, p.waveshape, n),
            ParameterInterpolator::new(s.phase_modulation, p.phase_modulation, n),
        ],
        safe,
    }
}

// Phase modulation takes steps only where the phase is put out.
fn modulation_room(phase_output: bool) -> Room
    ensures { result ≡ modulation_room phase_output }
{
    if phase_output {
        Room::ModulationOrGain
    } else {
        Room::Unused
    }
}
