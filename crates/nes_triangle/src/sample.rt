// One sample of the NES triangle, in the source's order. A new step is a whole part and no difference of steps goes below zero, so that the
// source's signed arithmetic is done in unsigned numbers. What goes from line to line are `Samples` and `Stepped`; beside them a function takes those of
// the source's variables that its lines read. `Ready` is of depth, state and frequency together, and so no invariant of one of them.
ghost use Rattle.std.specs.Prelude.{◌≡◌, ◌<◌, ◌≤◌, not, ◌&&◌};
ghost use Rattle.std.specs.Float.Ieee.{le};
ghost use Rattle.floats.specs.F32.{half32};
ghost use Rattle.whole_part.specs.WholePart.{is_whole};
ghost use Rattle.nes_triangle.specs.Sample.{gains_of, peak_of, nes_level, tri_level, finish as finished, sample_of};
ghost use Rattle.nes_triangle.specs.Private.{Ready, reached_of, reach_of};

use crate::depth::Depth;
use crate::step::Reached;
use crate::{State, step};
use block::{Counts, Sample};

// This sample, and what the next one starts with.
#[derive(Clone, Copy)]
pub struct Samples {
    pub this_sample: f32,
    pub next_sample: f32,
}

// Where a sample's step leads: the phase before any wrap and after it, the new step, and what happened on the way.
#[derive(Clone, Copy)]
pub struct Stepped {
    pub reached: f32,
    pub phase: f32,
    pub next_step: u32,
    pub changed: bool,
    pub wrap: bool,
}

// How loud the stepped triangle is, and how loud the naive one.
#[derive(Clone, Copy)]
pub struct Gains {
    pub nes_gain: f32,
    pub tri_gain: f32,
}

// Whether the whole part is still the state's step: line 80. The cast is safe, since a whole part is 131,072 at most.
// The string has this line for its segment: a function for both would be longer, by its contract.
fn on_step(s: State, whole: u32) -> bool
    requires { whole ≤ 131072 }
    ensures { result ≡ is_whole whole s.step }
{
    whole as i32 == s.step
}

// Lines 59 to 62: from the steps at full resolution to a naive triangle, from half a step a sample to a whole one.
pub(crate) fn fade(d: Depth, frequency: f32) -> Gains
    ensures { result ≡ gains_of d frequency }
{
    let point = (frequency - 0.5 / d.num_steps_f) * 2.0 * d.num_steps_f;
    let fade_to_tri = floats::clamp(point, 0.0, 1.0);
    Gains {
        nes_gain: 1.0 - fade_to_tri,
        tri_gain: fade_to_tri * 2.0 / d.scale,
    }
}

// The corner at the top of the naive triangle, lines 68 to 74: a change of slope. Where that triangle is silent the discontinuity is 0.
fn peak(x: Samples, here: bool, phase: f32, frequency: f32, discontinuity: f32) -> Samples
    ensures { result ≡ peak_of here phase frequency discontinuity x }
{
    if here & (discontinuity != 0.0) {
        let t = (phase - 0.5) / frequency;
        Samples {
            this_sample: x.this_sample - polyblep::this_integrated_blep_sample(t) * discontinuity,
            next_sample: x.next_sample - polyblep::next_integrated_blep_sample(t) * discontinuity,
        }
    } else {
        x
    }
}

// Lines 55 and 64 to 117, in the source's order, since each discontinuity is rounded into the same two sums. The peak is met before a wrap, and what
// belongs to a step is done only where there is a new one. A state's step need not be that of its phase; then it changes though the phase has come to no other.
fn reach(d: Depth, s: State, g: Gains, frequency: f32) -> Reached
    requires { Ready d s frequency }
    ensures { result ≡ reach_of d s g frequency }
{
    let reached = s.phase + frequency;
    let start = Samples {
        this_sample: s.next_sample,
        next_sample: 0.0,
    };
    let peaked = s.ascending & (reached >= 0.5);
    let corner = 4.0 * frequency * g.tri_gain;
    let x = peak(start, peaked, reached, frequency, corner);
    let ascending = s.ascending & !(reached >= 0.5);
    let whole = whole_part::whole_part(reached * d.num_steps_f);
    if on_step(s, whole) {
        let t = Stepped {
            reached,
            phase: reached,
            next_step: whole,
            changed: false,
            wrap: false,
        };
        step::come_to(t, x, ascending)
    } else {
        step::turn(d, g, x, ascending, reached, whole, frequency)
    }
}

// The stepped triangle's height, lines 123 to 127.
pub(crate) fn nes_level(step: u32, half: u32, top: u32) -> u32
    requires { step ≤ top }
    ensures { (result ≡ nes_level step half top) × (result ≤ top) }
{
    if step < half { step } else { top - step }
}

// The naive one's, lines 131 to 135.
pub(crate) fn tri_level(phase: f32) -> f32
    ensures { result ≡ tri_level phase }
{
    if phase < 0.5 {
        2.0 * phase
    } else {
        2.0 - 2.0 * phase
    }
}

// The end of a sample, lines 119 to 140, of whichever state and turn it came from.
fn finish(d: Depth, g: Gains, e: Reached, frequency: f32) -> Sample<State>
    requires { (e.step ≤ d.top) × (d.top < 65536) }
    ensures { (s : State) (t : Stepped) (x : Samples) → e ≡ reached_of t x (s.ascending && not (le half32 t.reached)) → result ≡ finished d s t g x frequency }
{
    let x = e.samples;
    let level = step::small(nes_level(e.step, d.half, d.top));
    let next_sample = x.next_sample + g.nes_gain * level + g.tri_gain * tri_level(e.phase);
    Sample {
        state: State {
            phase: e.phase,
            next_sample,
            step: e.step as i32,
            ascending: e.ascending,
            frequency,
        },
        sample: x.this_sample * d.scale - 1.0,
        counts: Counts {
            cycles: e.cycles,
            rises: e.rises,
            falls: 0,
            cuts: 0,
            late_rises: 0,
            late_falls: 0,
        },
    }
}

// Lines 54 to 140. The state is in its range, or one wrap might not be enough and `top - step` go below zero.
pub(crate) fn sample(d: Depth, s: State, frequency: f32) -> Sample<State>
    requires { Ready d s frequency }
    ensures { result ≡ sample_of d s frequency }
{
    let g = fade(d, frequency);
    let e = reach(d, s, g, frequency);
    finish(d, g, e, frequency)
}
