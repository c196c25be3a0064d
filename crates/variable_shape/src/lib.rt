// A waveform from triangle over saw to square, whose phase can be reset by a master: the source's oscillator/variable_shape_oscillator.rs.
#![tactic(auto)]

ghost use Rattle.std.specs.Prelude.{◌≡◌};
ghost use Rattle.variable_shape.specs.State.{new_state, init_state};
ghost use Rattle.variable_shape.specs.Block.{render_of, as_call};

use block::{Counts, Refusal};

mod crossings;
mod master_phase;
mod output;
mod quiet;
mod sample;
mod steps;
mod voice;
mod waveform;

// The setting of the master's phase.
pub use master_phase::{set_master_phase, set_master_phase_in};

// The source's fields, in its order.
#[derive(Clone, Copy)]
pub struct State {
    pub master_phase: f32,
    pub slave_phase: f32,
    pub next_sample: f32,
    pub previous_pw: f32,
    pub high: bool,
    pub master_frequency: f32,
    pub slave_frequency: f32,
    pub pw: f32,
    pub waveshape: f32,
    pub phase_modulation: f32,
}

// The source's `Default`.
pub fn new() -> State
    ensures { result ≡ new_state }
{
    State {
        master_phase: 0.0,
        slave_phase: 0.0,
        next_sample: 0.0,
        previous_pw: 0.0,
        high: false,
        master_frequency: 0.0,
        slave_frequency: 0.0,
        pw: 0.0,
        waveshape: 0.0,
        phase_modulation: 0.0,
    }
}

// What the source's `init` leaves.
pub fn init() -> State
    ensures { result ≡ init_state }
{
    State {
        master_phase: 0.0,
        slave_phase: 0.0,
        next_sample: 0.0,
        previous_pw: 0.5,
        high: false,
        master_frequency: 0.0,
        slave_frequency: 0.01,
        pw: 0.5,
        waveshape: 0.0,
        phase_modulation: 0.0,
    }
}

// What a call asks for, beside its buffer.
#[derive(Clone, Copy)]
pub struct Parameters {
    pub master_frequency: f32,
    pub frequency: f32,
    pub pw: f32,
    pub waveshape: f32,
    pub phase_modulation: f32,
    pub sync: bool,
    pub phase_output: bool,
}

// Renders a block into `out`, from the parameters that the last block ended with to these, and gives what it counts. A refusal changes nothing.
pub fn render(state: &mut State, parameters: Parameters, out: &mut [f32]) -> Result<Counts, Refusal>
    ensures { as_call result state.new out.new ≡ render_of state.old parameters.master_frequency parameters.frequency parameters.pw parameters.waveshape parameters.phase_modulation parameters.sync parameters.phase_output out.old }
{
    block::render(parameters, state, out)
}
