// What a sample puts out: the waveform, or the master's phase modulated by it. variable_shape_oscillator.rs, lines 193 to 207.
ghost use Rattle.std.specs.Prelude.{◌≡◌};
ghost use Rattle.variable_shape.specs.Sample.{window_of, phasor_of, output_of};

// The source, lines 196 to 198: "A trick to prevent discontinuities when the phase wraps around." It is 0 at both ends of a cycle and 1 in the middle.
fn window(master_phase: f32) -> f32
    ensures { result ≡ window_of master_phase }
{
    let w = 4.0 * (1.0 - master_phase) * master_phase;
    w * (2.0 - w)
}

// The source, lines 200 to 202: "Apply some asymmetry on the main phasor too." None at the width 0.5. `p2 * p2` is not the phase multiplied four times from
// the left: the bits differ.
fn phasor(master_phase: f32, pw: f32) -> f32
    ensures { result ≡ phasor_of master_phase pw }
{
    let p2 = master_phase * master_phase;
    master_phase + (p2 * p2 - master_phase) * floats::abs(pw - 0.5) * 2.0
}

// With phase output but no sync the master stands still, and neither trick is played.
pub(crate) fn output(
    sync: bool,
    phase_output: bool,
    master_phase: f32,
    pw: f32,
    phase_modulation: f32,
    this_sample: f32,
) -> f32
    ensures { result ≡ output_of sync phase_output master_phase pw phase_modulation this_sample }
{
    if phase_output {
        if sync {
            phasor(master_phase, pw) + phase_modulation * (this_sample * window(master_phase))
        } else {
            master_phase + phase_modulation * this_sample
        }
    } else {
        2.0 * this_sample - 1.0
    }
}
