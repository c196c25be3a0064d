// The variable saw for other languages.
ghost use Rattle.std.specs.Prelude.{◌≡◌};
ghost use Rattle.variable_saw_face.specs.Words.{init_words, render_face};

// Passed on, as all below.
pub fn navuloqu_3_variable_saw_init(words: &mut [u32; 7])
    ensures { words.new ≡ init_words }
{
    variable_saw_face::init(words);
}

// A block.
pub fn navuloqu_3_variable_saw_render(
    words: &mut [u32; 7],
    frequency: f32,
    pw: f32,
    waveshape: f32,
    out: &mut [f32],
    res: &mut [u32; 7],
) -> u32
    ensures { record { answer = result; words = words.new; result = res.new; samples = out.new } ≡ render_face words.old frequency pw waveshape out.old }
{
    variable_saw_face::render(words, frequency, pw, waveshape, out, res)
}
