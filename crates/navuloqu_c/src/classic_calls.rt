// The classic oscillator for other languages.
ghost use Rattle.std.specs.Prelude.{◌≡◌};
ghost use Rattle.classic_face.specs.Words.{init_face, render_face};

// Passed on, as all below.
#[unsafe(no_mangle)]
pub extern "C" fn navuloqu_3_classic_init(words: &mut [u32; 9], sample_rate: f32) -> u32
    ensures { record { words = words.new; number = result } ≡ init_face words.old sample_rate }
{
    navuloqu::classic_calls::navuloqu_3_classic_init(words, sample_rate)
}

// A block.
#[unsafe(no_mangle)]
pub extern "C" fn navuloqu_3_classic_render(
    words: &mut [u32; 9],
    frequency: f32,
    pw: f32,
    shape: u32,
    out: &mut [f32],
    res: &mut [u32; 7],
) -> u32
    ensures { record { answer = result; words = words.new; result = res.new; samples = out.new } ≡ render_face words.old frequency pw shape out.old }
{
    navuloqu::classic_calls::navuloqu_3_classic_render(words, frequency, pw, shape, out, res)
}
