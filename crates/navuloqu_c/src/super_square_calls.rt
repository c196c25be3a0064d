// The super square for other languages.
ghost use Rattle.std.specs.Prelude.{◌≡◌};
ghost use Rattle.super_square_face.specs.Words.{init_words, render_face};

// Passed on, as all below.
#[unsafe(no_mangle)]
pub extern "C" fn navuloqu_3_super_square_init(words: &mut [u32; 6])
    ensures { words.new ≡ init_words }
{
    navuloqu::super_square_calls::navuloqu_3_super_square_init(words);
}

// A block.
#[unsafe(no_mangle)]
pub extern "C" fn navuloqu_3_super_square_render(
    words: &mut [u32; 6],
    frequency: f32,
    shape: f32,
    out: &mut [f32],
    res: &mut [u32; 7],
) -> u32
    ensures { record { answer = result; words = words.new; result = res.new; samples = out.new } ≡ render_face words.old frequency shape out.old }
{
    navuloqu::super_square_calls::navuloqu_3_super_square_render(words, frequency, shape, out, res)
}
