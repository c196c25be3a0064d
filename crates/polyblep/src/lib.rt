// Polynomial approximation of band-limited step for band-limited waveform synthesis: the source's utils/polyblep.rs.
#![tactic(auto)]

ghost use Rattle.std.specs.Prelude.{◌≡◌};
ghost use Rattle.polyblep.specs.Polyblep.{this_blep_sample, next_blep_sample, next_integrated_blep_sample, this_integrated_blep_sample};

// What a step of 1 adds to the last sample before it. At the first sample after it the step is t samples old; t may exceed 1.
pub fn this_blep_sample(t: f32) -> f32
    ensures { result ≡ this_blep_sample t }
{
    0.5 * t * t
}

// What it adds to the first sample after it. The product goes from the left, so that t = 1 gives -0.0.
pub fn next_blep_sample(t: f32) -> f32
    ensures { result ≡ next_blep_sample t }
{
    let t = 1.0 - t;
    -0.5 * t * t
}

// The same where the slope changes by 1 and not the value. The sum goes from the left: grouped otherwise it rounds to other bits.
pub fn next_integrated_blep_sample(t: f32) -> f32
    ensures { result ≡ next_integrated_blep_sample t }
{
    let t1 = 0.5 * t;
    let t2 = t1 * t1;
    let t4 = t2 * t2;
    0.1875 - t1 + 1.5 * t2 - t4
}

// A corner looks the same from both sides.
pub fn this_integrated_blep_sample(t: f32) -> f32
    ensures { result ≡ this_integrated_blep_sample t }
{
    next_integrated_blep_sample(1.0 - t)
}
