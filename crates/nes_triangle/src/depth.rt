// The depth of a call: how many steps a cycle has, and what the waveform and its discontinuities are scaled with.
ghost use Rattle.std.specs.Prelude.{◌≡◌, ◌^◌, ◌≤◌};
ghost use Rattle.nes_triangle.specs.Depth.{bits_in, tested_bits, top_of, scale_of, depth_of};

#[derive(Clone, Copy)]
pub struct Depth {
    pub num_steps: u32,
    pub half: u32,
    pub top: u32,
    pub num_steps_f: f32,
    pub scale: f32,
}

// 01's range of `num_bits`. With one bit more, a phase times the number of steps could pass the 131,072 that `whole_part` knows.
pub(crate) fn bits_in(num_bits: u32) -> bool
    ensures { result ≡ bits_in num_bits }
{
    (1 <= num_bits) & (num_bits <= 16)
}

// The bits that a state's step is tested with. Bits outside their range are read as 16, so that the state can be refused before they are.
pub(crate) fn tested_bits(num_bits: u32) -> u32
    ensures { (result ≡ tested_bits num_bits) × (result ≤ 16) }
{
    if bits_in(num_bits) { num_bits } else { 16 }
}

// Line 37. Of a call the bits are 16 at most, so that no step is lost to the shift.
pub(crate) fn steps(num_bits: u32) -> u32
    requires { num_bits ≤ 16 }
    ensures { result ≡ 2 ^ num_bits }
{
    1 << num_bits
}

// Line 39: what the falling half counts down from. With 2 steps that is 2, so that the levels are 0 and 1 and not 0 and 0.
fn top(num_steps: u32) -> u32
    requires { 1 ≤ num_steps }
    ensures { result ≡ top_of num_steps }
{
    if num_steps != 2 { num_steps - 1 } else { 2 }
}

// Lines 41 to 45: times this, less 1, the levels go from -1 to 1. With 2 steps the greatest is 1, of which the formula would make 3.
fn scale(num_steps: u32, top: u32) -> f32
    requires { 1 ≤ top }
    ensures { result ≡ scale_of num_steps top }
{
    if num_steps != 2 {
        4.0 / std::num::nearest_u32_to_f32(top - 1)
    } else {
        2.0
    }
}

// Lines 37 to 45, once for a call.
pub(crate) fn of_bits(num_bits: u32) -> Depth
    requires { (1 ≤ num_bits) × (num_bits ≤ 16) }
    ensures { result ≡ depth_of num_bits }
{
    let num_steps = steps(num_bits);
    let top = top(num_steps);
    Depth {
        num_steps,
        half: num_steps / 2,
        top,
        num_steps_f: std::num::nearest_u32_to_f32(num_steps),
        scale: scale(num_steps, top),
    }
}
