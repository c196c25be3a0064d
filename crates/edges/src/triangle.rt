// The triangle that the variable shape and the variable saw mix in, and the time of an edge at a width that moves.
ghost use Rattle.std.specs.Prelude.{◌≡◌};
ghost use Rattle.floats.specs.F32.{◌⊖◌, ◌⊘◌, one32};
ghost use Rattle.edges.specs.Triangle.{triangle as triangle_of, triangle_step, rise_time};

// Up to 1 at the width, and down again to 0 at the end of the cycle. The width itself is on the way down.
pub fn triangle(phase: f32, pw: f32, slope_up: f32, slope_down: f32) -> f32
    ensures { result ≡ triangle_of phase pw slope_up slope_down }
{
    if phase < pw {
        phase * slope_up
    } else {
        1.0 - (phase - pw) * slope_down
    }
}

// The same between 0 and 1, with the one slope worked out that the phase is on: an edge has both slopes at hand, and a sample without one needs no more.
pub fn triangle_at(phase: f32, pw: f32) -> f32
    ensures { result ≡ triangle_of phase pw (one32 ⊘ pw) (one32 ⊘ (one32 ⊖ pw)) }
{
    if phase < pw {
        phase * (1.0 / pw)
    } else {
        1.0 - (phase - pw) * (1.0 / (1.0 - pw))
    }
}

// How much the triangle's slope changes at an edge, over one sample: both slopes count, as one goes up and the other down. Grouped as the source's
// `triangle_step`, from the left.
pub fn triangle_step(slope_up: f32, slope_down: f32, frequency: f32, amount: f32) -> f32
    ensures { result ≡ triangle_step slope_up slope_down frequency amount }
{
    (slope_up + slope_down) * frequency * amount
}

// How many samples ago the phase came to the width, which moves too. Where it has moved up by just the frequency the divisor is 0, and this is an
// infinity or a NaN, as in the source.
pub fn rise_time(phase: f32, pw: f32, previous_pw: f32, frequency: f32) -> f32
    ensures { result ≡ rise_time phase pw previous_pw frequency }
{
    (phase - pw) / (previous_pw - pw + frequency)
}
