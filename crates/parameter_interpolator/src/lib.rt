// Linear interpolation of parameters in rendering loops: the source's utils/parameter_interpolator.rs. Where the source keeps
// a reference to the parameter and writes back as the interpolator is dropped, the value goes in and comes out by value: the
// field `value` is what the source's drop stores, and each sample's state keeps it.
#![tactic(auto)]

ghost use Rattle.std.specs.Prelude.{◌≡◌};
ghost use Rattle.parameter_interpolator.specs.Interpolator.{new_interpolator, next_interpolator};

#[derive(Clone, Copy)]
pub struct ParameterInterpolator {
    pub value: f32,
    pub increment: f32,
}

impl ParameterInterpolator {
    // From `value` to `new_value` over a block of `size` samples: lines 14 to 21. An empty block divides by zero, and takes no step.
    pub fn new(value: f32, new_value: f32, size: u32) -> Self
        ensures { result ≡ new_interpolator value new_value size }
    {
        ParameterInterpolator {
            value,
            increment: (new_value - value) / std::num::nearest_u32_to_f32(size),
        }
    }

    // One step on: lines 41 to 44. Each sum is rounded, so that the last step need not land on the target.
    pub fn next(self) -> Self
        ensures { result ≡ next_interpolator self }
    {
        ParameterInterpolator {
            value: self.value + self.increment,
            increment: self.increment,
        }
    }
}
