// The steps that the parameters of the variable shape take at one sample.
ghost use Rattle.std.specs.Prelude.{◌≡◌, cond};
ghost use Rattle.rooms.proofs.Places.{place};

use parameter_interpolator::ParameterInterpolator;

#[derive(Clone, Copy)]
pub struct Steps {
    pub master_frequency: f32,
    pub slave_frequency: f32,
    pub pw: f32,
    pub waveshape: f32,
    pub phase_modulation: f32,
}

// The source steps phase modulation only where it puts the phase out (variable_shape_oscillator.rs, line 204): else it stays what it was.
fn modulation(phase_output: bool, step: f32, before: f32) -> f32
    ensures { result ≡ cond phase_output step before }
{
    if phase_output { step } else { before }
}

// From the places that the parameters stand in. `before` is the state's own phase modulation.
pub(crate) fn at(moving: [ParameterInterpolator; 5], phase_output: bool, before: f32) -> Steps
    ensures { result ≡ record { master_frequency = (place moving 0).value; slave_frequency = (place moving 1).value; pw = (place moving 2).value; waveshape = (place moving 3).value; phase_modulation = cond phase_output (place moving 4).value before } }
{
    Steps {
        master_frequency: moving[0].value,
        slave_frequency: moving[1].value,
        pw: moving[2].value,
        waveshape: moving[3].value,
        phase_modulation: modulation(phase_output, moving[4].value, before),
    }
}
