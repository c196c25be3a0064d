// A mixture of saws and squares in the style of divide-down organs: the source's oscillator/string_synth_oscillator.rs.
#![tactic(auto)]

ghost use Rattle.std.specs.Prelude.{◌≡◌};
ghost use Rattle.string_synth.specs.State.{new_state, init_state};
ghost use Rattle.string_synth.specs.Block.{render_of, as_call};

use block::{Counts, Refusal};

mod quiet;
mod sample;
mod targets;
mod voice;

// The source's fields, in its order.
#[derive(Clone, Copy)]
pub struct State {
    pub phase: f32,
    pub next_sample: f32,
    pub segment: i32,
    pub frequency: f32,
    pub saw_8_gain: f32,
    pub saw_4_gain: f32,
    pub saw_2_gain: f32,
    pub saw_1_gain: f32,
}

// The source's `Default`.
pub fn new() -> State
    ensures { result ≡ new_state }
{
    State {
        phase: 0.0,
        next_sample: 0.0,
        segment: 0,
        frequency: 0.0,
        saw_8_gain: 0.0,
        saw_4_gain: 0.0,
        saw_2_gain: 0.0,
        saw_1_gain: 0.0,
    }
}

// What the source's `init` leaves.
pub fn init() -> State
    ensures { result ≡ init_state }
{
    State {
        phase: 0.0,
        next_sample: 0.0,
        segment: 0,
        frequency: 0.001,
        saw_8_gain: 0.0,
        saw_4_gain: 0.0,
        saw_2_gain: 0.0,
        saw_1_gain: 0.0,
    }
}

// What a call asks for, beside its buffer. The seven registration entries are the gains of saw 8', square 8', saw 4', square 4', saw 2', square 2' and
// saw 1'.
#[derive(Clone, Copy)]
pub struct Parameters<'a> {
    pub frequency: f32,
    pub registration: &'a [f32],
    pub gain: f32,
}

// Adds a block to `out`, from the frequency and gains that the last block ended with to these, and gives what it counts. A refusal changes nothing.
pub fn render(
    state: &mut State,
    parameters: Parameters<'_>,
    out: &mut [f32],
) -> Result<Counts, Refusal>
    ensures { as_call result state.new out.new ≡ render_of state.old parameters.entry.frequency parameters.entry.registration.now parameters.entry.gain out.old }
{
    block::render(parameters, state, out)
}
