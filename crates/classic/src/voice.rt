// The classic oscillator as a voice of `block`: what is asked of its state and parameters, their glides, and one sample.
ghost use Rattle.std.specs.Prelude.{◌≡◌, [], ◌∷◌, ⊤};
ghost use Rattle.rooms.proofs.Guard.{glides_of};
ghost use Rattle.block.specs.Checks.{◌unless◌};
ghost use Rattle.classic.specs.Sample.{sample_at};
ghost use Rattle.classic.specs.Block.{state_in, parameters_in, interpolators, rooms};
ghost use Rattle.classic.specs.Private.{Valid, courses, others};

use crate::{Parameters, State, quiet, sample, shapes, targets};
use block::{Counts, Refusal, Sample, Voice};
use parameter_interpolator::ParameterInterpolator;
use rooms::{Glides, Room};

impl Voice for Parameters {
    type State = State;

    // Nothing is kept beside the state.
    type Hand = ();

    ghost checks = { λ v s. 3 unless state_in s ∷ 4 unless parameters_in v.frequency v.pw ∷ [] };

    ghost moving = { λ v s n. interpolators s v.frequency v.pw v.shape n };

    ghost rooms = { λ v. rooms v.shape };

    ghost make = { λ v. sample_at v.shape };

    ghost valid = { λ v. Valid };

    ghost fits = { λ v s hand. ⊤ };

    fn check(self, state: State) -> Result<(), Refusal> {
        if !state_in(state) {
            return Err(Refusal::BadState);
        }
        if !parameters_in(self.frequency, self.pw) {
            return Err(Refusal::BadParam);
        }
        Ok(())
    }

    fn glides(self, state: State, n: u32) -> Glides {
        glides(state, self, n)
    }

    fn places(self) -> [Room; 5] {
        [
            Room::Frequency,
            shapes::width_room(self.shape),
            Room::Unused,
            Room::Unused,
            Room::Unused,
        ]
    }

    fn ready(self, state: State) {}

    // In most samples nothing happens, and nothing is counted: they go the short way, which leaves the counts alone.
    fn sample(
        self,
        state: State,
        hand: &mut (),
        steps: [ParameterInterpolator; 5],
        held: f32,
        counts: Counts,
    ) -> Sample<State> {
        if quiet::is_quiet(state, steps[0].value, steps[1].value, self.shape) {
            let made = quiet::sample(state, steps[0].value, steps[1].value, self.shape);
            Sample { counts, ..made }
        } else {
            let made = sample::sample(state, steps[0].value, steps[1].value, self.shape);
            Sample {
                counts: block::sum(counts, made.counts),
                ..made
            }
        }
    }
}

// 01's ranges of a state. What the filters and the impulse train carry may have any bits, as `next_sample` may.
fn state_in(s: State) -> bool
    ensures { result ≡ state_in s }
{
    ranges::phase_in(s.phase) & ranges::frequency_in(s.frequency) & ranges::unit_in(s.pw)
}

// 01's ranges of a call's parameters: the width's too where the shape does not step it.
fn parameters_in(frequency: f32, pw: f32) -> bool
    ensures { result ≡ parameters_in frequency pw }
{
    ranges::parameter_frequency_in(frequency) & ranges::unit_in(pw)
}

// The frequency, and the width where the shape steps it, on their way to the targets, over n samples, and whether all are safe. The other places are not used.
fn glides(s: State, p: Parameters, n: u32) -> Glides
    ensures { result ≡ glides_of n (courses s p.frequency p.pw p.shape) (others p.shape) }
{
    let target = targets::frequency(p.frequency);
    let moving = ParameterInterpolator::new(s.frequency, target, n);
    let safe = rooms::safe(Room::Frequency, s.frequency, target);
    let still = rooms::still();
    if shapes::steps_width(p.shape) {
        let width = targets::width(target, p.pw);
        let opening = ParameterInterpolator::new(s.pw, width, n);
        let width_safe = rooms::safe(Room::PulseWidth, s.pw, width);
        Glides {
            interpolators: [moving, opening, still, still, still],
            safe: safe & width_safe,
        }
    } else {
        Glides {
            interpolators: [moving, still, still, still, still],
            safe,
        }
    }
}
