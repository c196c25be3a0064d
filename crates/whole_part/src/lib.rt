// The whole part of a float, worked out from its bits: the source's `as i32`, for numbers from 0 up to 131,072.
#![tactic(auto)]

ghost use Rattle.std.specs.Prelude.{◌≡◌, true};
ghost use Rattle.std.specs.Float.Ieee.{le, lt};
ghost use Rattle.floats.specs.F32.{f32, one32};
ghost use Rattle.whole_part.specs.WholePart.{whole_part};

// A NaN and what lies below 1 fail both tests and give 0, as in Rust. The top is tested first, so that the bits are asked only for numbers
// with at most 17 digits before the point.
pub fn whole_part(x: f32) -> u32
    ensures { result ≡ whole_part x }
{
    if x >= 131072.0 {
        return 131072;
    }
    if x >= 1.0 { digits_before_point(x) } else { 0 }
}

// Of the leading one, which the bits leave out, and the 23 digits behind it those before the point, which are one more than the exponent. The bits hold
// the exponent with 127 added. Worked out and not converted, since the edits of this crate are of its digits.
fn digits_before_point(x: f32) -> u32
    requires { (le one32 x ≡ true) × (lt x (f32 0x4800_0000) ≡ true) }
    ensures { result ≡ whole_part x }
{
    let bits = f32::to_bits(x);
    let exponent = bits / 0x80_0000 - 127;
    (bits % 0x80_0000 + 0x80_0000) >> (23 - exponent)
}
