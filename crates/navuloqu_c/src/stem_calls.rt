// Stems for other languages.
ghost use Rattle.std.specs.Prelude.{◌≡◌};
ghost use Rattle.wave.specs.Write.{write_of};

// Passed on, as all below.
#[unsafe(no_mangle)]
pub extern "C" fn navuloqu_3_wave_write(rate: u32, samples: &[f32], out: &mut [u8]) -> u32
    ensures { record { number = result; bytes = out.new } ≡ write_of rate samples.now out.old }
{
    navuloqu::stem_calls::navuloqu_3_wave_write(rate, samples, out)
}
