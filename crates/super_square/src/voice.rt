// The super square as a voice of `block`: what is asked of its state and parameters, their glides, and one sample.
ghost use Rattle.std.specs.Prelude.{◌≡◌, [], ◌∷◌, ⊤};
ghost use Rattle.rooms.specs.Steps.{still_one};
ghost use Rattle.rooms.proofs.Guard.{glides_of};
ghost use Rattle.block.specs.Checks.{◌unless◌};
ghost use Rattle.super_square.specs.Sample.{sample_at};
ghost use Rattle.super_square.specs.Block.{state_in, parameters_in, factor_of, interpolators, rooms};
ghost use Rattle.super_square.specs.Private.{Valid, courses};

use crate::{Parameters, State, quiet, sample};
use block::{Counts, Refusal, Sample, Voice};
use parameter_interpolator::ParameterInterpolator;
use ranges::targets;
use rooms::{Glides, Room};

impl Voice for Parameters {
    type State = State;

    // Nothing is kept beside the state.
    type Hand = ();

    ghost checks = { λ v s. 3 unless state_in s ∷ 4 unless parameters_in v.frequency v.shape ∷ [] };

    ghost moving = { λ v s n. interpolators s v.frequency v.shape n };

    ghost rooms = { λ v. rooms };

    ghost make = { λ v. sample_at };

    ghost valid = { λ v. Valid };

    ghost fits = { λ v s hand. ⊤ };

    fn check(self, state: State) -> Result<(), Refusal> {
        if !state_in(state) {
            return Err(Refusal::BadState);
        }
        if !parameters_in(self.frequency, self.shape) {
            return Err(Refusal::BadParam);
        }
        Ok(())
    }

    fn glides(self, state: State, n: u32) -> Glides {
        glides(state, self.frequency, self.shape, n)
    }

    fn places(self) -> [Room; 5] {
        [
            Room::Frequency,
            Room::Frequency,
            Room::Unused,
            Room::Unused,
            Room::Unused,
        ]
    }

    fn ready(self, state: State) {}

    // In most samples nothing happens, and nothing is counted: they go the short way, which leaves the counts alone.
    fn sample(
        self,
        state: State,
        hand: &mut (),
        steps: [ParameterInterpolator; 5],
        held: f32,
        counts: Counts,
    ) -> Sample<State> {
        if quiet::is_quiet(state, steps[0].value, steps[1].value) {
            let made = quiet::sample(state, steps[0].value, steps[1].value);
            Sample { counts, ..made }
        } else {
            let made = sample::sample(state, steps[0].value, steps[1].value);
            Sample {
                counts: block::sum(counts, made.counts),
                ..made
            }
        }
    }
}

// 01's ranges of a state. `next_sample` may have any bits.
fn state_in(s: State) -> bool
    ensures { result ≡ state_in s }
{
    ranges::phase_in(s.master_phase)
        & ranges::phase_in(s.slave_phase)
        & ranges::frequency_in(s.master_frequency)
        & ranges::frequency_in(s.slave_frequency)
}

// 01's ranges of a call's parameters.
fn parameters_in(frequency: f32, shape: f32) -> bool
    ensures { result ≡ parameters_in frequency shape }
{
    ranges::parameter_frequency_in(frequency) & ranges::unit_in(shape)
}

// How much faster the slave runs than the master.
fn factor(shape: f32) -> f32
    ensures { result ≡ factor_of shape }
{
    if shape < 0.5 {
        0.51 + 0.98 * shape
    } else {
        1.0 + 16.0 * (shape - 0.5) * (shape - 0.5)
    }
}

// The master's and the slave's frequency on their way to the targets, over n samples, and whether both are safe; the other places are not used.
fn glides(s: State, frequency: f32, shape: f32, n: u32) -> Glides
    ensures { result ≡ glides_of n (courses s frequency shape) (still_one ∷ still_one ∷ still_one ∷ []) }
{
    let master_target = targets::clip(frequency);
    let slave_target = targets::clip(frequency * factor(shape));
    let safe = rooms::safe(Room::Frequency, s.master_frequency, master_target)
        & rooms::safe(Room::Frequency, s.slave_frequency, slave_target);
    Glides {
        interpolators: [
            ParameterInterpolator::new(s.master_frequency, master_target, n),
            ParameterInterpolator::new(s.slave_frequency, slave_target, n),
            rooms::still(),
            rooms::still(),
            rooms::still(),
        ],
        safe,
    }
}
