// The NES triangle for other languages.
ghost use Rattle.std.specs.Prelude.{◌≡◌};
ghost use Rattle.nes_triangle_face.specs.Words.{init_words, render_face};

// Passed on, as all below.
pub fn navuloqu_3_nes_triangle_init(words: &mut [u32; 5])
    ensures { words.new ≡ init_words }
{
    nes_triangle_face::init(words);
}

// A block.
pub fn navuloqu_3_nes_triangle_render(
    words: &mut [u32; 5],
    frequency: f32,
    num_bits: u32,
    out: &mut [f32],
    res: &mut [u32; 7],
) -> u32
    ensures { record { answer = result; words = words.new; result = res.new; samples = out.new } ≡ render_face words.old frequency num_bits out.old }
{
    nes_triangle_face::render(words, frequency, num_bits, out, res)
}
