// The ranges of 01 that more than one oscillator has, for states and parameters. A NaN lies outside each, since a comparison with it is false.
#![tactic(auto)]

ghost use Rattle.std.specs.Prelude.{◌≡◌};
ghost use Rattle.ranges.specs.Ranges.{within as between, phase_in, frequency_in, parameter_frequency_in, unit_in, waveshape_in, modulation_or_gain_in};

pub mod targets;

// In cycles a sample: the source's oscillator.rs, lines 13 and 14.
pub const MAX_FREQUENCY: f32 = 0.25;

pub const MIN_FREQUENCY: f32 = 0.000001;

// From low to high, both included.
pub fn within(low: f32, high: f32, x: f32) -> bool
    ensures { result ≡ between low high x }
{
    (low <= x) & (x <= high)
}

// No phase is 1: a sample that comes to 1 wraps. Negative zero is a phase.
pub fn phase_in(x: f32) -> bool
    ensures { result ≡ phase_in x }
{
    (0.0 <= x) & (x < 1.0)
}

// A state's, up to 17/64: a little above MAX_FREQUENCY, since a glide to that need not land on it. 0 is inside, where no sample's
// step may be, since a state that `new` made has it.
pub fn frequency_in(x: f32) -> bool
    ensures { result ≡ frequency_in x }
{
    within(0.0, 0.265625, x)
}

// A parameter's: what lies above MAX_FREQUENCY is in the range, and clipped by the oscillator.
pub fn parameter_frequency_in(x: f32) -> bool
    ensures { result ≡ parameter_frequency_in x }
{
    within(MIN_FREQUENCY, 1.0, x)
}

// A width, a shape, an entry of a registration; of a state a pulse width, which is 0 as `new` made it.
pub fn unit_in(x: f32) -> bool
    ensures { result ≡ unit_in x }
{
    within(0.0, 1.0, x)
}

// A state's waveshape. The parameter's range is 0 to 1, and a glide need not land within it.
pub fn waveshape_in(x: f32) -> bool
    ensures { result ≡ waveshape_in x }
{
    within(-1.0, 2.0, x)
}

// A state's phase modulation, whose parameter is 8 at most, or saw gain, of which the parameters make 12 at most.
pub fn modulation_or_gain_in(x: f32) -> bool
    ensures { result ≡ modulation_or_gain_in x }
{
    within(-16.0, 16.0, x)
}
