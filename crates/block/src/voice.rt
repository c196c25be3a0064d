// An oscillator with the settings of a call, and the call, said once for all of them: the checks in 01's order, the search for a step outside its room,
// and the samples.
ghost use Rattle.std.specs.Prelude.{◌≡◌, ℕ, ◌≤◌, true, None, List, length, Float};
ghost use Rattle.parameter_interpolator.specs.declared.ParameterInterpolator.{ParameterInterpolator as Interpolator};
ghost use Rattle.rooms.specs.declared.Room.{Room as RoomOf};
ghost use Rattle.rooms.specs.Steps.{values, steps_of, first_outside};
ghost use Rattle.rooms.proofs.Padding.{unused, used};
ghost use Rattle.block.specs.Calls.{gave};
ghost use Rattle.block.specs.Checks.{Check, AllPass};
ghost use Rattle.block.specs.declared.sample.Sample.{Sample as Made};
ghost use Rattle.block.specs.Fit.{Fit, Playable, Inside, heard_from};
ghost use Rattle.block.specs.Voices.{Checked, Padded, Kept, adding, call_by};

use crate::refusal::Refusal;
use crate::sample::Sample;
use crate::{Counts, none};
use parameter_interpolator::ParameterInterpolator;
use rooms::{Glides, Room};

pub trait Voice: Copy {
    type State: Copy;

    // What is kept at hand from sample to sample, beside the state: worked out anew only where the state asks for it.
    type Hand: Copy;

    // 01's checks after that of the length, in their order.
    ghost checks: { Self → Self.State → List Check };

    // The interpolators that the source steps, over so many samples, and the room of each.
    ghost moving: { Self → Self.State → ℕ → List Interpolator };

    ghost rooms: { Self → List RoomOf };

    // One sample, from the state, its steps and what the buffer held.
    ghost make: { Self → Self.State → List Float → Float → Made Self.State };

    // What the checks of a call make sure of, and each of its samples keeps.
    ghost valid: { Self → Self.State → Type 0 };

    // What is at hand goes with the state.
    ghost fits: { Self → Self.State → Self.Hand → Type 0 };

    // The first check that fails refuses. Each voice says its own, in the order of its `checks`, though some ask the same two questions.
    fn check(self, state: Self::State) -> Result<(), Refusal>
        ensures { Checked (checks self state) (valid self state) result };

    // The parameters on their way to their targets, and whether all are safe.
    fn glides(self, state: Self::State, n: u32) -> Glides
        requires short { n ≤ 4096 }
        requires checked { AllPass (checks self state) }
        requires valid { valid self state }
        ensures moving { used (rooms self) result.interpolators ≡ moving self state n }
        ensures safe { result.safe ≡ true → first_outside (rooms self) (steps_of n (moving self state n)) ≡ None };

    // The rooms, in five places.
    fn places(self) -> [Room; 5]
        ensures { Padded (rooms self) result };

    // What is at hand as a block begins.
    fn ready(self, state: Self::State) -> Self::Hand
        requires { valid self state }
        ensures { fits self state result };

    // One sample, whose steps are the interpolators' values, from what the buffer held; what it counts is added to the counts so far.
    // The voice adds them itself: in most samples nothing is counted, and a voice that knows it there leaves them as they are.
    fn sample(
        self,
        state: Self::State,
        hand: &mut Self::Hand,
        steps: [ParameterInterpolator; 5],
        held: f32,
        counts: Counts,
    ) -> Sample<Self::State>
        requires valid { valid self state }
        requires hand { fits self state hand.old }
        requires inside { Inside (rooms self) (values (used (rooms self) steps)) }
        ensures hand { fits self result.state hand.new }
        ensures kept { Kept (valid self) (make self state (values (used (rooms self) steps)) held) }
        ensures made { result ≡ adding counts (make self state (values (used (rooms self) steps)) held) };
}

// Every sample of the buffer, and what they count together.
fn play<V: Voice>(
    voice: V,
    state: &mut V::State,
    interpolators: [ParameterInterpolator; 5],
    out: &mut [f32],
) -> Counts
    requires places { length (V.rooms voice) ≤ length interpolators }
    requires playable { Playable (V.valid voice) (V.rooms voice) state.old (used (V.rooms voice) interpolators) out.old }
    ensures { record { state = state.new; samples = out.new; counts = result } ≡ heard_from (V.make voice) state.old (used (V.rooms voice) interpolators) out.old }
{
    let mut s = *state;
    let mut hand = voice.ready(s);
    let mut moving = interpolators;
    let mut counts = none();
    for sample in out.iter_mut() {
        let next = rooms::advance(moving);
        moving = next;
        let made = voice.sample(s, &mut hand, moving, *sample, counts);
        *sample = made.sample;
        s = made.state;
        counts = made.counts;
    }
    *state = s;
    counts
}

// Renders a block into `out`, from the parameters that the last block ended with to the voice's. A refused one changes neither state nor buffer.
pub fn render<V: Voice>(voice: V, state: &mut V::State, out: &mut [f32]) -> Result<Counts, Refusal>
    ensures { gave result state.new out.new ≡ call_by (V.checks voice state.old) (V.rooms voice) (V.moving voice state.old (length out.old)) (V.make voice) state.old out.old }
{
    if out.len() > 4096 {
        return Err(Refusal::LongBlock);
    }
    voice.check(*state)?;
    let n = out.len() as u32;
    let glides = voice.glides(*state, n);
    if let Some(i) = rooms::find_drift(glides, voice.places(), n) {
        return Err(Refusal::Drift(i));
    }
    Ok(play(voice, state, glides.interpolators, out))
}
