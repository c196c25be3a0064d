// A sample within a segment: the phase comes to no other, no saw falls, and nothing is counted. Most samples are such, and this is their short way: the starts of
// the segment's saws are at hand, and no whole part is worked out.
ghost use Rattle.std.specs.Prelude.{◌≡◌, true, ◌&&◌, unsigned_abs};
ghost use Rattle.std.specs.Float.Ieee.{le, lt};
ghost use Rattle.floats.specs.F32.{◌⊕◌, one32};
ghost use Rattle.block.specs.Counting.{no_counts};
ghost use Rattle.string_synth.specs.Sample.{sample_of};
ghost use Rattle.string_synth.specs.Private.{Valid, starts_of};

use crate::sample::{Saws, Starts};
use crate::{State, sample};
use block::Sample;

// Whether the step leaves the phase in the segment: the 1' saw starts with it, and a segment is one unit of phase.
pub(crate) fn is_quiet(s: State, starts: Starts, frequency: f32) -> bool
    ensures { result ≡ (le starts.saw_1 (s.phase ⊕ frequency) && lt (s.phase ⊕ frequency) (starts.saw_1 ⊕ one32)) }
{
    let phase = s.phase + frequency;
    (starts.saw_1 <= phase) & (phase < starts.saw_1 + 1.0)
}

// The sample, under that test.
pub(crate) fn sample(s: State, starts: Starts, saws: Saws, held: f32) -> Sample<State>
    requires valid { Valid s }
    requires starts_of_segment { starts ≡ starts_of (unsigned_abs s.segment) }
    requires segment_stays { (le starts.saw_1 (s.phase ⊕ saws.frequency) && lt (s.phase ⊕ saws.frequency) (starts.saw_1 ⊕ one32)) ≡ true }
    ensures made { result ≡ sample_of s saws held }
    ensures counts { result.counts ≡ no_counts }
{
    let e = sample::stay(s, s.phase + saws.frequency, s.segment as u32);
    sample::finish(e, starts, saws, held)
}
