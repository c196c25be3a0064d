// The classic waveforms over one phase, eight shapes: the source's oscillator/oscillator.rs, without external FM and without through-zero.
#![tactic(auto)]

ghost use Rattle.std.specs.Prelude.{◌≡◌};
ghost use Rattle.classic.specs.State.{new_state};
ghost use Rattle.classic.specs.Block.{render_of, as_call};

use block::{Counts, Refusal};

mod edges_of;
mod output;
mod quiet;
mod sample;
mod shapes;
mod start;
mod targets;
mod voice;

// A shape by its number.
pub use shapes::shape_of;
// The start from a sample rate.
pub use start::init;

// The source's fields, in its order.
#[derive(Clone, Copy)]
pub struct State {
    pub phase: f32,
    pub next_sample: f32,
    pub lp_state: f32,
    pub hp_state: f32,
    pub high: bool,
    pub frequency: f32,
    pub pw: f32,
    pub impulse_train_lp_coeff: f32,
    pub impulse_train_gain: f32,
}

// The source's shapes, in its order.
#[derive(Clone, Copy)]
pub enum OscillatorShape {
    ImpulseTrain,
    Saw,
    Triangle,
    Slope,
    Square,
    SquareBright,
    SquareDark,
    SquareTriangle,
}

// The source's `Default`.
pub fn new() -> State
    ensures { result ≡ new_state }
{
    State {
        phase: 0.0,
        next_sample: 0.0,
        lp_state: 0.0,
        hp_state: 0.0,
        high: false,
        frequency: 0.0,
        pw: 0.0,
        impulse_train_lp_coeff: 0.0,
        impulse_train_gain: 0.0,
    }
}

// What a call asks for, beside its buffer.
#[derive(Clone, Copy)]
pub struct Parameters {
    pub frequency: f32,
    pub pw: f32,
    pub shape: OscillatorShape,
}

// Renders a block of one shape into `out`, from the frequency and width that the last block ended with to these, and gives what it counts. A refusal changes nothing.
pub fn render(state: &mut State, parameters: Parameters, out: &mut [f32]) -> Result<Counts, Refusal>
    ensures { as_call result state.new out.new ≡ render_of state.old parameters.frequency parameters.pw parameters.shape out.old }
{
    block::render(parameters, state, out)
}
