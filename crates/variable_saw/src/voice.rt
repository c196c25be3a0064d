// The variable saw as a voice of `block`: what is asked of its state and parameters, their glides, and one sample.
ghost use Rattle.std.specs.Prelude.{◌≡◌, [], ◌∷◌, ⊤};
ghost use Rattle.rooms.specs.Steps.{still_one};
ghost use Rattle.rooms.proofs.Guard.{glides_of};
ghost use Rattle.block.specs.Checks.{◌unless◌};
ghost use Rattle.variable_saw.specs.Sample.{sample_at};
ghost use Rattle.variable_saw.specs.Block.{saw_phase_in, state_in, parameters_in, interpolators, rooms};
ghost use Rattle.variable_saw.specs.Private.{Valid, courses};

use crate::steps::Steps;
use crate::{Parameters, State, quiet, sample};
use block::{Counts, Refusal, Sample, Voice};
use parameter_interpolator::ParameterInterpolator;
use ranges::targets;
use rooms::{Glides, Room};

impl Voice for Parameters {
    type State = State;

    // Nothing is kept beside the state.
    type Hand = ();

    ghost checks = { λ v s. 3 unless state_in s ∷ 4 unless parameters_in v.frequency v.pw v.waveshape ∷ [] };

    ghost moving = { λ v s n. interpolators s v.frequency v.pw v.waveshape n };

    ghost rooms = { λ v. rooms };

    ghost make = { λ v. sample_at };

    ghost valid = { λ v. Valid };

    ghost fits = { λ v s hand. ⊤ };

    fn check(self, state: State) -> Result<(), Refusal> {
        if !state_in(state) {
            return Err(Refusal::BadState);
        }
        if !parameters_in(self) {
            return Err(Refusal::BadParam);
        }
        Ok(())
    }

    fn glides(self, state: State, n: u32) -> Glides {
        glides(state, self, n)
    }

    fn places(self) -> [Room; 5] {
        [
            Room::Frequency,
            Room::PulseWidth,
            Room::Waveshape,
            Room::Unused,
            Room::Unused,
        ]
    }

    fn ready(self, state: State) {}

    // In most samples nothing happens, and nothing is counted: they go the short way, which leaves the counts alone.
    fn sample(
        self,
        state: State,
        hand: &mut (),
        steps: [ParameterInterpolator; 5],
        held: f32,
        counts: Counts,
    ) -> Sample<State> {
        let steps = Steps {
            frequency: steps[0].value,
            pw: steps[1].value,
            waveshape: steps[2].value,
        };
        if quiet::is_quiet(state, steps) {
            let made = quiet::sample(state, steps);
            Sample { counts, ..made }
        } else {
            let made = sample::sample(state, steps);
            Sample {
                counts: block::sum(counts, made.counts),
                ..made
            }
        }
    }
}

// A phase is below 1, but while `high` it may be up to 81/64: a rise and a wrap exclude each other in one sample.
fn saw_phase_in(high: bool, phase: f32) -> bool
    ensures { result ≡ saw_phase_in high phase }
{
    if high {
        ranges::within(0.0, 1.265625, phase)
    } else {
        ranges::phase_in(phase)
    }
}

// 01's ranges of a state. `next_sample` may have any bits.
fn state_in(s: State) -> bool
    ensures { result ≡ state_in s }
{
    saw_phase_in(s.high, s.phase)
        & ranges::unit_in(s.previous_pw)
        & ranges::frequency_in(s.frequency)
        & ranges::unit_in(s.pw)
        & ranges::waveshape_in(s.waveshape)
}

// 01's ranges of a call's parameters.
fn parameters_in(p: Parameters) -> bool
    ensures { result ≡ parameters_in p.frequency p.pw p.waveshape }
{
    ranges::parameter_frequency_in(p.frequency)
        & ranges::unit_in(p.pw)
        & ranges::unit_in(p.waveshape)
}

// The frequency, the width and the waveshape on their way to the targets, over n samples, and whether all are safe: a waveshape always is. The other places are not used.
fn glides(s: State, p: Parameters, n: u32) -> Glides
    ensures { result ≡ glides_of n (courses s p.frequency p.pw p.waveshape) (still_one ∷ still_one ∷ []) }
{
    let target = targets::clip(p.frequency);
    let width = targets::clamp_width(target, p.pw);
    let safe = rooms::safe(Room::Frequency, s.frequency, target)
        & rooms::safe(Room::PulseWidth, s.pw, width);
    Glides {
        interpolators: [
            ParameterInterpolator::new(s.frequency, target, n),
            ParameterInterpolator::new(s.pw, width, n),
            ParameterInterpolator::new(s.waveshape, p.waveshape, n),
            rooms::still(),
            rooms::still(),
        ],
        safe,
    }
}
