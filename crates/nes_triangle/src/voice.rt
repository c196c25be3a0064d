// The NES triangle as a voice of `block`: what is asked of its state and parameters, their glide, and one sample.
ghost use Rattle.std.specs.Prelude.{◌≡◌, [], ◌∷◌};
ghost use Rattle.rooms.specs.Steps.{still_one};
ghost use Rattle.rooms.proofs.Guard.{glides_of};
ghost use Rattle.block.specs.Checks.{◌unless◌};
ghost use Rattle.nes_triangle.specs.Depth.{depth_of};
ghost use Rattle.nes_triangle.specs.Sample.{sample_at};
ghost use Rattle.nes_triangle.specs.Block.{step_in, state_in, parameters_in, interpolators, rooms};
ghost use Rattle.nes_triangle.specs.Private.{Passed, Holds, courses};

use crate::depth::Depth;
use crate::quiet::Held;
use crate::{Parameters, State, depth, quiet, sample};
use block::{Counts, Refusal, Sample, Voice};
use parameter_interpolator::ParameterInterpolator;
use rooms::{Glides, Room};

// The depth of the call, and what is held of the state's step.
#[derive(Clone, Copy)]
pub struct Hand {
    pub depth: Depth,
    pub held: Held,
}

impl Voice for Parameters {
    type State = State;

    type Hand = Hand;

    ghost checks = { λ v s. 3 unless state_in s v.num_bits ∷ 4 unless parameters_in v.frequency v.num_bits ∷ [] };

    ghost moving = { λ v s n. interpolators s v.frequency n };

    ghost rooms = { λ v. rooms };

    ghost make = { λ v. sample_at v.num_bits };

    ghost valid = { λ v. Passed v.num_bits };

    ghost fits = { λ v s hand. (hand.depth ≡ depth_of v.num_bits) × Holds hand.depth s hand.held };

    fn check(self, state: State) -> Result<(), Refusal> {
        if !state_in(state, self.num_bits) {
            return Err(Refusal::BadState);
        }
        if !parameters_in(self.frequency, self.num_bits) {
            return Err(Refusal::BadParam);
        }
        Ok(())
    }

    fn glides(self, state: State, n: u32) -> Glides {
        glides(state, self.frequency, n)
    }

    fn places(self) -> [Room; 5] {
        [
            Room::Frequency,
            Room::Unused,
            Room::Unused,
            Room::Unused,
            Room::Unused,
        ]
    }

    fn ready(self, state: State) -> Hand {
        let depth = depth::of_bits(self.num_bits);
        Hand {
            depth,
            held: quiet::hold(depth, state),
        }
    }

    // A sample in which nothing happens goes the short way: nothing is counted there, so the counts are left alone, and the same step is held.
    fn sample(
        self,
        state: State,
        hand: &mut Hand,
        steps: [ParameterInterpolator; 5],
        held: f32,
        counts: Counts,
    ) -> Sample<State> {
        let frequency = steps[0].value;
        if quiet::is_quiet(hand.depth, state, hand.held, frequency) {
            let made = quiet::sample(hand.depth, state, hand.held, frequency);
            Sample { counts, ..made }
        } else {
            let made = sample::sample(hand.depth, state, frequency);
            hand.held = quiet::hold(hand.depth, made.state);
            Sample {
                counts: block::sum(counts, made.counts),
                ..made
            }
        }
    }
}

// 01's ranges of a state. The step's end goes by the bits of this call.
fn state_in(s: State, num_bits: u32) -> bool
    ensures { result ≡ state_in s num_bits }
{
    ranges::phase_in(s.phase) & ranges::frequency_in(s.frequency) & step_in(s.step, num_bits)
}

// A step is signed, as in the source: a negative one is no step.
fn step_in(step: i32, num_bits: u32) -> bool
    ensures { result ≡ step_in num_bits step }
{
    u32::try_from(step).is_ok_and(|step| step < depth::steps(depth::tested_bits(num_bits)))
}

// 01's ranges of a call's parameters.
fn parameters_in(frequency: f32, num_bits: u32) -> bool
    ensures { result ≡ parameters_in frequency num_bits }
{
    ranges::parameter_frequency_in(frequency) & depth::bits_in(num_bits)
}

// The frequency on its way to the target, over n samples, and whether it is safe; the other places are not used.
fn glides(s: State, frequency: f32, n: u32) -> Glides
    ensures { result ≡ glides_of n (courses s frequency) (still_one ∷ still_one ∷ still_one ∷ still_one ∷ []) }
{
    let target = floats::min(frequency, 0.25);
    let safe = rooms::safe(Room::Frequency, s.frequency, target);
    Glides {
        interpolators: [
            ParameterInterpolator::new(s.frequency, target, n),
            rooms::still(),
            rooms::still(),
            rooms::still(),
            rooms::still(),
        ],
        safe,
    }
}
