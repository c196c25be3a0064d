// What the parameters become before a block starts, in the source's operations: oscillator.rs, lines 77 and 81.
ghost use Rattle.std.specs.Prelude.{◌≡◌};
ghost use Rattle.classic.specs.Targets.{frequency_target, width_target};

use ranges::{MAX_FREQUENCY, MIN_FREQUENCY};

// From MIN_FREQUENCY to MAX_FREQUENCY.
pub(crate) fn frequency(frequency: f32) -> f32
    ensures { result ≡ frequency_target frequency }
{
    floats::clamp(frequency, MIN_FREQUENCY, MAX_FREQUENCY)
}

// The width that a frequency allows, of either sign: at least two samples on each side. At 0.25 both ends are 0.5.
pub(crate) fn width(frequency: f32, pw: f32) -> f32
    ensures { result ≡ width_target frequency pw }
{
    let size = floats::abs(frequency);
    floats::clamp(pw, size * 2.0, 1.0 - 2.0 * size)
}
