// The string synth for other languages.
ghost use Rattle.std.specs.Prelude.{◌≡◌};
ghost use Rattle.string_synth_face.specs.Words.{init_words, render_face};

// Passed on, as all below.
pub fn navuloqu_3_string_synth_init(words: &mut [u32; 8])
    ensures { words.new ≡ init_words }
{
    string_synth_face::init(words);
}

// A block, added to what the buffer holds.
pub fn navuloqu_3_string_synth_render(
    words: &mut [u32; 8],
    frequency: f32,
    registration: &[f32],
    gain: f32,
    out: &mut [f32],
    res: &mut [u32; 7],
) -> u32
    ensures { record { answer = result; words = words.new; result = res.new; samples = out.new } ≡ render_face words.old frequency registration.now gain out.old }
{
    string_synth_face::render(words, frequency, registration, gain, out, res)
}
