// The variable shape for other languages.
ghost use Rattle.std.specs.Prelude.{◌≡◌};
ghost use Rattle.variable_shape_face.specs.Words.{init_words, render_face, set_face};

// Passed on, as all below.
#[unsafe(no_mangle)]
pub extern "C" fn navuloqu_3_variable_shape_init(words: &mut [u32; 10])
    ensures { words.new ≡ init_words }
{
    navuloqu::variable_shape_calls::navuloqu_3_variable_shape_init(words);
}

// A block.
#[unsafe(no_mangle)]
pub extern "C" fn navuloqu_3_variable_shape_render(
    words: &mut [u32; 10],
    master_frequency: f32,
    frequency: f32,
    pw: f32,
    waveshape: f32,
    phase_modulation: f32,
    sync: bool,
    phase_output: bool,
    out: &mut [f32],
    res: &mut [u32; 7],
) -> u32
    ensures { record { answer = result; words = words.new; result = res.new; samples = out.new } ≡ render_face words.old master_frequency frequency pw waveshape phase_modulation sync phase_output out.old }
{
    navuloqu::variable_shape_calls::navuloqu_3_variable_shape_render(
        words,
        master_frequency,
        frequency,
        pw,
        waveshape,
        phase_modulation,
        sync,
        phase_output,
        out,
        res,
    )
}

// Only the first word changes, and only where the phase is in its range.
#[unsafe(no_mangle)]
pub extern "C" fn navuloqu_3_variable_shape_set_master_phase(
    words: &mut [u32; 10],
    phase: f32,
) -> u32
    ensures { record { words = words.new; number = result } ≡ set_face words.old phase }
{
    navuloqu::variable_shape_calls::navuloqu_3_variable_shape_set_master_phase(words, phase)
}
