// A triangle approximated by discrete steps: the source's oscillator/nes_triangle_oscillator.rs.
#![tactic(auto)]

ghost use Rattle.std.specs.Prelude.{◌≡◌};
ghost use Rattle.nes_triangle.specs.State.{new_state, init_state};
ghost use Rattle.nes_triangle.specs.Block.{render_of, as_call};

use block::{Counts, Refusal};

mod depth;
mod quiet;
mod sample;
mod step;
mod voice;

// The source's fields, in its order.
#[derive(Clone, Copy)]
pub struct State {
    pub phase: f32,
    pub next_sample: f32,
    pub step: i32,
    pub ascending: bool,
    pub frequency: f32,
}

// The source's `Default`.
pub fn new() -> State
    ensures { result ≡ new_state }
{
    State {
        phase: 0.0,
        next_sample: 0.0,
        step: 0,
        ascending: false,
        frequency: 0.0,
    }
}

// What the source's `init` leaves.
pub fn init() -> State
    ensures { result ≡ init_state }
{
    State {
        phase: 0.0,
        next_sample: 0.0,
        step: 0,
        ascending: true,
        frequency: 0.001,
    }
}

// What a call asks for, beside its buffer: 2^num_bits steps a cycle.
#[derive(Clone, Copy)]
pub struct Parameters {
    pub frequency: f32,
    pub num_bits: u32,
}

// Renders a block into `out`, from the frequency that the last block ended with to this one, and gives what it counts. A refusal changes nothing.
pub fn render(state: &mut State, parameters: Parameters, out: &mut [f32]) -> Result<Counts, Refusal>
    ensures { as_call result state.new out.new ≡ render_of state.old parameters.frequency parameters.num_bits out.old }
{
    block::render(parameters, state, out)
}
