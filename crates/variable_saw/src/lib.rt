// A saw with variable slope or notch: the source's oscillator/variable_saw_oscillator.rs.
#![tactic(auto)]

ghost use Rattle.std.specs.Prelude.{◌≡◌};
ghost use Rattle.variable_saw.specs.State.{new_state, init_state};
ghost use Rattle.variable_saw.specs.Block.{render_of, as_call};

use block::{Counts, Refusal};

mod quiet;
mod sample;
mod steps;
mod voice;

// The source's fields, in its order.
#[derive(Clone, Copy)]
pub struct State {
    pub phase: f32,
    pub next_sample: f32,
    pub previous_pw: f32,
    pub high: bool,
    pub frequency: f32,
    pub pw: f32,
    pub waveshape: f32,
}

// The source's `Default`.
pub fn new() -> State
    ensures { result ≡ new_state }
{
    State {
        phase: 0.0,
        next_sample: 0.0,
        previous_pw: 0.0,
        high: false,
        frequency: 0.0,
        pw: 0.0,
        waveshape: 0.0,
    }
}

// What the source's `init` leaves.
pub fn init() -> State
    ensures { result ≡ init_state }
{
    State {
        phase: 0.0,
        next_sample: 0.0,
        previous_pw: 0.5,
        high: false,
        frequency: 0.01,
        pw: 0.5,
        waveshape: 0.0,
    }
}

// What a call asks for, beside its buffer.
#[derive(Clone, Copy)]
pub struct Parameters {
    pub frequency: f32,
    pub pw: f32,
    pub waveshape: f32,
}

// Renders a block into `out`, from the frequency, width and waveshape that the last block ended with to these, and gives what it counts. A refusal changes nothing.
pub fn render(state: &mut State, parameters: Parameters, out: &mut [f32]) -> Result<Counts, Refusal>
    ensures { as_call result state.new out.new ≡ render_of state.old parameters.frequency parameters.pw parameters.waveshape out.old }
{
    block::render(parameters, state, out)
}
