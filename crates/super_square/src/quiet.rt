// A sample in which nothing happens, neither a reset nor a crossing. Most samples are such, and this is their short way: no edge, and nothing to count.
ghost use Rattle.std.specs.Prelude.{◌≡◌, true, not, ◌&&◌, cond};
ghost use Rattle.std.specs.Float.Ieee.{lt, le};
ghost use Rattle.floats.specs.F32.{◌⊕◌, half32, one32};
ghost use Rattle.block.specs.Counting.{no_counts};
ghost use Rattle.super_square.specs.Sample.{sample_of};

use crate::{State, sample};
use block::Sample;

// No reset, line 73, and no crossing, lines 100 and 110. The two steps go one by one, here and in a sample: a struct would only be opened again.
pub(crate) fn is_quiet(s: State, master_frequency: f32, slave_frequency: f32) -> bool
    ensures { result ≡ (not (le one32 (s.master_phase ⊕ master_frequency)) && cond s.high (lt (s.slave_phase ⊕ slave_frequency) one32) (lt (s.slave_phase ⊕ slave_frequency) half32)) }
{
    !(s.master_phase + master_frequency >= 1.0)
        & edges::is_uncrossed(s.high, s.slave_phase + slave_frequency, 0.5)
}

// The sample, under that test: the phases move on, and the square is read where the slave's is.
pub(crate) fn sample(s: State, master_frequency: f32, slave_frequency: f32) -> Sample<State>
    requires { (not (le one32 (s.master_phase ⊕ master_frequency)) && cond s.high (lt (s.slave_phase ⊕ slave_frequency) one32) (lt (s.slave_phase ⊕ slave_frequency) half32)) ≡ true }
    ensures made { result ≡ sample_of s master_frequency slave_frequency }
    ensures counts { result.counts ≡ no_counts }
{
    let slave_phase = s.slave_phase + slave_frequency;
    Sample {
        state: State {
            master_phase: s.master_phase + master_frequency,
            slave_phase,
            next_sample: 0.0 + sample::level(slave_phase),
            high: s.high,
            master_frequency,
            slave_frequency,
        },
        sample: 2.0 * s.next_sample - 1.0,
        counts: block::none(),
    }
}
