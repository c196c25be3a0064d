// The string synth as a voice of `block`: what is asked of its state and parameters, their glides, and one sample.
ghost use Rattle.std.specs.Prelude.{◌≡◌, not, ◌&&◌, [], ◌∷◌, length, nat_eq, unsigned_abs};
ghost use Rattle.std.specs.Float.Ieee.{lt};
ghost use Rattle.floats.specs.F32.{half32};
ghost use Rattle.rooms.proofs.Guard.{glides_of};
ghost use Rattle.block.specs.Checks.{◌unless◌};
ghost use Rattle.string_synth.specs.Sample.{sample_at};
ghost use Rattle.string_synth.specs.Targets.{targets_of};
ghost use Rattle.string_synth.specs.Block.{string_phase_in, segment_in, gains_in, state_in, registration_in, parameters_in, interpolators, rooms};
ghost use Rattle.string_synth.specs.Private.{Valid, courses, starts_of};

use crate::sample::{Saws, Starts};
use crate::{Parameters, State, quiet, sample, targets};
use block::{Counts, Refusal, Sample, Voice};
use parameter_interpolator::ParameterInterpolator;
use rooms::{Glides, Room};

impl<'a> Voice for Parameters<'a> {
    type State = State;

    // The starts of the saws of the state's segment.
    type Hand = Starts;

    ghost checks = { λ v s. 2 unless nat_eq (length v.registration.now) 7 ∷ 3 unless state_in s ∷ 4 unless parameters_in v.frequency v.registration.now v.gain ∷ 5 unless not (lt half32 v.frequency) ∷ [] };

    ghost moving = { λ v s n. interpolators s (targets_of v.frequency v.registration.now v.gain) n };

    ghost rooms = { λ v. rooms };

    ghost make = { λ v. sample_at };

    ghost valid = { λ v. Valid };

    ghost fits = { λ v s hand. hand ≡ starts_of (unsigned_abs s.segment) };

    fn check(self, state: State) -> Result<(), Refusal> {
        if self.registration.len() != 7 {
            return Err(Refusal::BadRegistration);
        }
        if !state_in(state) {
            return Err(Refusal::BadState);
        }
        if !parameters_in(self.frequency, self.registration, self.gain) {
            return Err(Refusal::BadParam);
        }
        if self.frequency > 0.5 {
            return Err(Refusal::TooHigh);
        }
        Ok(())
    }

    fn glides(self, state: State, n: u32) -> Glides {
        glides(
            state,
            targets::targets(self.frequency, self.registration, self.gain),
            n,
        )
    }

    fn places(self) -> [Room; 5] {
        [
            Room::StringFrequency,
            Room::ModulationOrGain,
            Room::ModulationOrGain,
            Room::ModulationOrGain,
            Room::ModulationOrGain,
        ]
    }

    fn ready(self, state: State) -> Starts {
        sample::starts_of(state.segment as u32)
    }

    // Most samples stay in their segment, and nothing is counted: they go the short way, which leaves the counts alone, with the starts kept from the last sample that did not.
    fn sample(
        self,
        state: State,
        hand: &mut Starts,
        steps: [ParameterInterpolator; 5],
        held: f32,
        counts: Counts,
    ) -> Sample<State> {
        let saws = Saws {
            frequency: steps[0].value,
            saw_8_gain: steps[1].value,
            saw_4_gain: steps[2].value,
            saw_2_gain: steps[3].value,
            saw_1_gain: steps[4].value,
        };
        if quiet::is_quiet(state, *hand, saws.frequency) {
            let made = quiet::sample(state, *hand, saws, held);
            Sample { counts, ..made }
        } else {
            let made = sample::sample(state, saws, held);
            *hand = sample::starts_of(made.state.segment as u32);
            Sample {
                counts: block::sum(counts, made.counts),
                ..made
            }
        }
    }
}

// 01's ranges of a state.
fn state_in(s: State) -> bool
    ensures { result ≡ state_in s }
{
    place_in(s) & ranges::within(0.0, 0.53125, s.frequency) & gains_in(s)
}

// The phase goes to 8, and the segment is its whole part; it is signed, as in the source, and a negative one is none.
fn place_in(s: State) -> bool
    ensures { result ≡ (string_phase_in s.phase && segment_in s.segment) }
{
    ((0.0 <= s.phase) & (s.phase < 8.0)) & ((0 <= s.segment) & (s.segment <= 7))
}

// The four saw gains.
fn gains_in(s: State) -> bool
    ensures { result ≡ gains_in s.saw_8_gain s.saw_4_gain s.saw_2_gain s.saw_1_gain }
{
    ranges::modulation_or_gain_in(s.saw_8_gain)
        & ranges::modulation_or_gain_in(s.saw_4_gain)
        & ranges::modulation_or_gain_in(s.saw_2_gain)
        & ranges::modulation_or_gain_in(s.saw_1_gain)
}

// 01's ranges of a call's parameters; that a pitch is too high is tested after them.
fn parameters_in(frequency: f32, registration: &[f32], gain: f32) -> bool
    ensures { result ≡ parameters_in frequency registration.now gain }
{
    ranges::parameter_frequency_in(frequency)
        & registration_in(registration)
        & ranges::within(0.0, 4.0, gain)
}

// Every entry, whatever their number: it is tested before.
fn registration_in(registration: &[f32]) -> bool
    ensures { result ≡ registration_in registration.now }
{
    registration.iter().all(|entry| ranges::unit_in(*entry))
}

// The frequency and the four gains on their way to the targets, over n samples, and whether all are safe: a gain always is. Every place is used.
fn glides(s: State, to: Saws, n: u32) -> Glides
    ensures { result ≡ glides_of n (courses s to) [] }
{
    let safe = rooms::safe(Room::StringFrequency, s.frequency, to.frequency);
    Glides {
        interpolators: [
            ParameterInterpolator::new(s.frequency, to.frequency, n),
            ParameterInterpolator::new(s.saw_8_gain, to.saw_8_gain, n),
            ParameterInterpolator::new(s.saw_4_gain, to.saw_4_gain, n),
            ParameterInterpolator::new(s.saw_2_gain, to.saw_2_gain, n),
            ParameterInterpolator::new(s.saw_1_gain, to.saw_1_gain, n),
        ],
        safe,
    }
}
