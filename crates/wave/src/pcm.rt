// A sample as a 16-bit number, worked out from its bits.
ghost use Rattle.std.specs.Prelude.{◌≡◌, ◌^◌, ◌≤◌, ◌<◌};
ghost use Rattle.floats.specs.F32.{f32};
ghost use Rattle.wave.specs.Pcm.{rounded, pcm_of};

// A sample's number.
pub(crate) fn number(x: f32) -> i16
    ensures { result ≡ pcm_of x }
{
    let bits = floats::to_bits(x);
    if bits < 0x8000_0000 {
        return size(bits);
    }
    -size(bits - 0x8000_0000)
}

// The number of a sample that is not negative: 32,767 from 1 on, and 0 for a NaN, whose bits lie above an infinity's.
fn size(bits: u32) -> i16
    requires { bits < 2147483648 }
    ensures { result ≡ pcm_of (f32 bits) }
{
    if bits > 0x7f80_0000 {
        return 0;
    }
    if bits >= 0x3f80_0000 {
        return 32_767;
    }
    below_one(bits)
}

// A number below 1 is 24 digits, the first of which the bits leave out, over 2 to the power of 150 less its field. With a field below 110 it is less
// than half of 1 / 32,767.
fn below_one(bits: u32) -> i16
    requires { bits < 1065353216 }
    ensures { result ≡ pcm_of (f32 bits) }
{
    let field = bits / 0x80_0000;
    if field < 110 {
        return 0;
    }
    let digits = bits % 0x80_0000 + 0x80_0000;
    round(digits as u64 * 32_767, power(150 - field)) as i16
}

// 2 to a small power.
fn power(s: u32) -> u64
    requires { s ≤ 40 }
    ensures value { result ≡ 2 ^ s }
    ensures positive { 0 < result }
    ensures bound { result ≤ 1099511627776 }
{
    1 << s
}

// v / unit to the nearest whole number, a tie to the even one.
fn round(v: u64, unit: u64) -> u64
    requires positive { 0 < unit }
    requires unit { unit ≤ 1099511627776 }
    requires v { v ≤ 1099511627776 }
    ensures { result ≡ rounded v unit }
{
    let whole = v / unit;
    let left = v % unit * 2;
    if left == unit {
        return whole + whole % 2;
    }
    if left < unit { whole } else { whole + 1 }
}
