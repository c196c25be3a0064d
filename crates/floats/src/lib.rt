// Rust's f32::min, max, clamp and abs for all floats, and floats from and to bit patterns.
#![tactic(auto)]

ghost use Rattle.std.specs.Prelude.{◌≡◌};
ghost use Rattle.std.specs.Float.{binary32};
ghost use Rattle.std.specs.Float.Ieee.{to_bits};
ghost use Rattle.floats.specs.F32.{f32};
ghost use Rattle.floats.specs.Helpers.{min_of, max_of, at_least, clamp_of, abs_of};

// A NaN gives way to a number. Of two equal values it is the second: Rust leaves open which zero is the less.
pub fn min(x: f32, y: f32) -> f32
    ensures { result ≡ min_of x y }
{
    if (x < y) | y.is_nan() { x } else { y }
}

// As `min`, with the test turned round: one function for both would take the test from its caller, and be no plainer.
pub fn max(x: f32, y: f32) -> f32
    ensures { result ≡ max_of x y }
{
    if (y < x) | y.is_nan() { x } else { y }
}

// At least `low`, and then at most `high`. A NaN stays one. Rust panics where `low` is above `high`; this gives `high`.
pub fn clamp(x: f32, low: f32, high: f32) -> f32
    ensures { result ≡ clamp_of x low high }
{
    let raised = at_least(x, low);
    if high < raised { high } else { raised }
}

// A function of its own, so that `clamp` has one test and what it tests is a call's result.
fn at_least(x: f32, low: f32) -> f32
    ensures { result ≡ at_least x low }
{
    if x < low { low } else { x }
}

// A zero of either sign becomes 0.0.
pub fn abs(x: f32) -> f32
    ensures { result ≡ abs_of x }
{
    x.abs()
}

// The float of any pattern. f32::from_bits is undefined at a NaN's, which lie above an infinity's.
pub fn from_bits(bits: u32) -> f32
    ensures { result ≡ f32 bits }
{
    if bits % 0x8000_0000 > 0x7f80_0000 {
        0.0 / 0.0
    } else {
        f32::from_bits(bits)
    }
}

// The pattern of any float. f32::to_bits is undefined at a NaN, for which this gives the quiet one without a sign.
pub fn to_bits(x: f32) -> u32
    ensures { result ≡ to_bits binary32 x }
{
    if x.is_nan() {
        0x7fc0_0000
    } else {
        f32::to_bits(x)
    }
}
