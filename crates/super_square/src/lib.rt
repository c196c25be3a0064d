// Two hard-synced square waves with one shape parameter: the source's oscillator/super_square_oscillator.rs.
#![tactic(auto)]

ghost use Rattle.std.specs.Prelude.{◌≡◌};
ghost use Rattle.super_square.specs.State.{new_state, init_state};
ghost use Rattle.super_square.specs.Block.{render_of, as_call};

use block::{Counts, Refusal};

mod quiet;
mod sample;
mod voice;

// The source's fields, in its order.
#[derive(Clone, Copy)]
pub struct State {
    pub master_phase: f32,
    pub slave_phase: f32,
    pub next_sample: f32,
    pub high: bool,
    pub master_frequency: f32,
    pub slave_frequency: f32,
}

// The source's `Default`.
pub fn new() -> State
    ensures { result ≡ new_state }
{
    State {
        master_phase: 0.0,
        slave_phase: 0.0,
        next_sample: 0.0,
        high: false,
        master_frequency: 0.0,
        slave_frequency: 0.0,
    }
}

// What the source's `init` leaves.
pub fn init() -> State
    ensures { result ≡ init_state }
{
    State {
        master_phase: 0.0,
        slave_phase: 0.0,
        next_sample: 0.0,
        high: false,
        master_frequency: 0.0,
        slave_frequency: 0.01,
    }
}

// What a call asks for, beside its buffer.
#[derive(Clone, Copy)]
pub struct Parameters {
    pub frequency: f32,
    pub shape: f32,
}

// Renders a block into `out`, from the frequency and shape that the last block ended with to these, and gives what it counts. A refusal changes nothing.
pub fn render(state: &mut State, parameters: Parameters, out: &mut [f32]) -> Result<Counts, Refusal>
    ensures { as_call result state.new out.new ≡ render_of state.old parameters.frequency parameters.shape out.old }
{
    block::render(parameters, state, out)
}
