// What a parameter becomes before a block starts, where more than one oscillator does it.
ghost use Rattle.std.specs.Prelude.{◌≡◌};
ghost use Rattle.ranges.specs.Targets.{clipped, clamped_width};

use crate::MAX_FREQUENCY;

// The test of the super square, the variable shape and the variable saw. The NES triangle's is `min`.
pub fn clip(frequency: f32) -> f32
    ensures { result ≡ clipped frequency }
{
    if frequency >= MAX_FREQUENCY {
        MAX_FREQUENCY
    } else {
        frequency
    }
}

// The pulse width that a frequency allows: at least two samples high and two low. At 0.25 both ends are 0.5, and above it the lower
// would pass the upper, which `clamp` must not get. The source writes 0.25 out here.
pub fn clamp_width(frequency: f32, pw: f32) -> f32
    ensures { result ≡ clamped_width frequency pw }
{
    if frequency >= 0.25 {
        0.5
    } else {
        floats::clamp(pw, frequency * 2.0, 1.0 - 2.0 * frequency)
    }
}
