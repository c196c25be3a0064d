// The variable saw for other languages.
ghost use Rattle.std.specs.Prelude.{◌≡◌};
ghost use Rattle.variable_saw_face.specs.Words.{init_words, render_face};

// Passed on, as all below.
#[unsafe(no_mangle)]
pub extern "C" fn navuloqu_3_variable_saw_init(words: &mut [u32; 7])
    ensures { words.new ≡ init_words }
{
    navuloqu::variable_saw_calls::navuloqu_3_variable_saw_init(words);
}

// A block.
#[unsafe(no_mangle)]
pub extern "C" fn navuloqu_3_variable_saw_render(
    words: &mut [u32; 7],
    frequency: f32,
    pw: f32,
    waveshape: f32,
    out: &mut [f32],
    res: &mut [u32; 7],
) -> u32
    ensures { record { answer = result; words = words.new; result = res.new; samples = out.new } ≡ render_face words.old frequency pw waveshape out.old }
{
    navuloqu::variable_saw_calls::navuloqu_3_variable_saw_render(
        words, frequency, pw, waveshape, out, res,
    )
}
