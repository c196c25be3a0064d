// The classic oscillator's start at a sample rate: the source's oscillator.rs, lines 51 to 63.
ghost use Rattle.std.specs.Prelude.{◌≡◌};
ghost use Rattle.classic.specs.State.{lp_coeff, initial_state};
ghost use Rattle.classic.specs.Start.{started_at, as_start};

use crate::State;
use block::Refusal;

// The source's lib.rs, line 25.
const REF_SAMPLE_RATE: f32 = 48000.0;

// The state given is not looked at: it stays as it is where the rate is outside.
pub fn init(state: &mut State, sample_rate: f32) -> Result<(), Refusal>
    ensures { as_start result state.new ≡ started_at state.old sample_rate }
{
    if !ranges::within(8000.0, 384000.0, sample_rate) {
        return Err(Refusal::BadParam);
    }
    *state = initial(sample_rate);
    Ok(())
}

// Line 61: a product, and then a quotient.
fn lp_coeff(sample_rate: f32) -> f32
    ensures { result ≡ lp_coeff sample_rate }
{
    0.25 * REF_SAMPLE_RATE / sample_rate
}

// Lines 52 to 62.
fn initial(sample_rate: f32) -> State
    ensures { result ≡ initial_state sample_rate }
{
    let coeff = lp_coeff(sample_rate);
    State {
        phase: 0.5,
        next_sample: 0.0,
        lp_state: 1.0,
        hp_state: 0.0,
        high: true,
        frequency: 0.001,
        pw: 0.5,
        impulse_train_lp_coeff: coeff,
        impulse_train_gain: 1.0 / coeff,
    }
}
