// The variable shape's master phase set from outside, by value and on a lent state: the source's oscillator/variable_shape_oscillator.rs, lines 51 to 53.
ghost use Rattle.std.specs.Prelude.{◌≡◌};
ghost use Rattle.variable_shape.specs.MasterPhase.{master_phase_set, left, as_setting};

use crate::State;
use block::Refusal;

// The state is not tested: the phase alone is looked at, and the rest handed on. Where it is refused the state stays what was given.
pub fn set_master_phase(state: State, phase: f32) -> Result<State, Refusal>
    ensures { as_setting result (left state result) ≡ master_phase_set state phase }
{
    if !ranges::phase_in(phase) {
        return Err(Refusal::BadParam);
    }
    Ok(State {
        master_phase: phase,
        ..state
    })
}

// The same on a state that is lent, as the source has it.
pub fn set_master_phase_in(state: &mut State, phase: f32) -> Result<(), Refusal>
    ensures { as_setting result state.new ≡ master_phase_set state.old phase }
{
    *state = set_master_phase(*state, phase)?;
    Ok(())
}
