// The super square for other languages.
ghost use Rattle.std.specs.Prelude.{◌≡◌};
ghost use Rattle.super_square_face.specs.Words.{init_words, render_face};

// Passed on, as all below.
pub fn navuloqu_3_super_square_init(words: &mut [u32; 6])
    ensures { words.new ≡ init_words }
{
    super_square_face::init(words);
}

// A block.
pub fn navuloqu_3_super_square_render(
    words: &mut [u32; 6],
    frequency: f32,
    shape: f32,
    out: &mut [f32],
    res: &mut [u32; 7],
) -> u32
    ensures { record { answer = result; words = words.new; result = res.new; samples = out.new } ≡ render_face words.old frequency shape out.old }
{
    super_square_face::render(words, frequency, shape, out, res)
}
