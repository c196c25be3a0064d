// One sample of the string synth, in the source's order.
ghost use Rattle.std.specs.Prelude.{◌≡◌, ◌≤◌};
ghost use Rattle.whole_part.specs.WholePart.{is_whole};
ghost use Rattle.string_synth.specs.Sample.{less_if, discontinuity_of, wrap_phase, wrap_segment, blep_of, softened, stayed, crossed, reached_of, next_sample, finish as finished, sample_of};
ghost use Rattle.string_synth.specs.Private.{starts_of};

use crate::State;
use block::{Counts, Sample};
use std::num::nearest_u32_to_f32;

// The frequency of the saws, and how loud each of the four is.
#[derive(Clone, Copy)]
pub struct Saws {
    pub frequency: f32,
    pub saw_8_gain: f32,
    pub saw_4_gain: f32,
    pub saw_2_gain: f32,
    pub saw_1_gain: f32,
}

// The phases at which the saws of a segment start; the 8' saw, whose cycle is the whole, starts at 0.
#[derive(Clone, Copy)]
pub struct Starts {
    pub saw_4: f32,
    pub saw_2: f32,
    pub saw_1: f32,
}

// Where a step has brought the phase: a sample in the making. Its segment is a whole part, never negative, and so unsigned.
#[derive(Clone, Copy)]
pub struct Reached {
    pub phase: f32,
    pub segment: u32,
    pub this_sample: f32,
    pub next_sample: f32,
    pub cycles: u32,
    pub rises: u32,
}

// Whether the phase is still in the state's segment: line 118. The cast is safe, since a whole part is 131,072 at most.
// The NES triangle has this line for its step: a function for both would be longer, by its contract.
fn in_segment(s: State, whole: u32) -> bool
    requires { whole ≤ 131072 }
    ensures { result ≡ is_whole whole s.segment }
{
    whole as i32 == s.segment
}

// A gain taken off, where its saw falls: apart from `discontinuity`, which so has no branch.
fn less_if(falls: bool, discontinuity: f32, gain: f32) -> f32
    ensures { result ≡ less_if falls discontinuity gain }
{
    if falls {
        discontinuity - gain
    } else {
        discontinuity
    }
}

// How far the saws fall together at the start of a segment, lines 119 to 131: each saw twice as often as the one before it in the list.
fn discontinuity(wraps: bool, segment: u32, saws: Saws) -> f32
    ensures { result ≡ discontinuity_of wraps segment saws }
{
    let of_8 = less_if(wraps, 0.0, saws.saw_8_gain);
    let of_4 = less_if((segment & 3) == 0, of_8, saws.saw_4_gain);
    let of_2 = less_if((segment & 1) == 0, of_4, saws.saw_2_gain);
    of_2 - saws.saw_1_gain
}

// Line 121: a cycle of the 8' saw is eight segments, and a segment one unit of phase.
fn wrap_phase(phase: f32, wraps: bool) -> f32
    ensures { result ≡ wrap_phase phase wraps }
{
    if wraps { phase - 8.0 } else { phase }
}

// Line 122. Where the phase is below 8 and the step 17/32 at most, no whole part passes 8.
fn wrap_segment(whole: u32) -> u32
    ensures { result ≡ wrap_segment whole }
{
    if whole == 8 { whole - 8 } else { whole }
}

// The fall, band-limited: lines 133 to 136. All saws that fall do so at the same moment, and so have one discontinuity.
fn blep(e: Reached, discontinuity: f32, frequency: f32) -> Reached
    ensures { result ≡ blep_of e discontinuity frequency }
{
    let fraction = e.phase - nearest_u32_to_f32(e.segment);
    let t = fraction / frequency;
    Reached {
        this_sample: e.this_sample + polyblep::this_blep_sample(t) * discontinuity,
        next_sample: e.next_sample + polyblep::next_blep_sample(t) * discontinuity,
        ..e
    }
}

// Line 132: where the gains cancel out there is no fall, and no division by a step.
fn soften(e: Reached, discontinuity: f32, frequency: f32) -> Reached
    ensures { result ≡ softened e discontinuity frequency }
{
    if discontinuity != 0.0 {
        blep(e, discontinuity, frequency)
    } else {
        e
    }
}

// Within a segment: this sample starts with what the last one left for it, and the next from 0.
pub(crate) fn stay(s: State, phase: f32, whole: u32) -> Reached
    ensures { result ≡ stayed s phase whole }
{
    Reached {
        phase,
        segment: whole,
        this_sample: s.next_sample,
        next_sample: 0.0,
        cycles: 0,
        rises: 0,
    }
}

// Into another segment, lines 119 to 138. 01 counts each as a rise, and a wrap as a cycle.
fn cross(s: State, saws: Saws, phase: f32, whole: u32) -> Reached
    ensures { result ≡ crossed s saws phase whole }
{
    let wraps = whole == 8;
    let segment = wrap_segment(whole);
    let e = Reached {
        phase: wrap_phase(phase, wraps),
        segment,
        this_sample: s.next_sample,
        next_sample: 0.0,
        cycles: block::one_if(wraps),
        rises: 1,
    };
    soften(e, discontinuity(wraps, segment, saws), saws.frequency)
}

// Lines 107 to 139. A state's segment need not be that of its phase; then a fall is heard though the phase has come to no other.
fn reach(s: State, saws: Saws) -> Reached
    ensures { result ≡ reached_of s saws }
{
    let phase = s.phase + saws.frequency;
    let whole = whole_part::whole_part(phase);
    if in_segment(s, whole) {
        stay(s, phase, whole)
    } else {
        cross(s, saws, phase, whole)
    }
}

// Where in a cycle the saws of a segment start, lines 141 to 144: the 4' saw every four segments, the 2' saw every two, and the 1' saw at each.
pub(crate) fn starts_of(segment: u32) -> Starts
    ensures { result ≡ starts_of segment }
{
    Starts {
        saw_4: nearest_u32_to_f32(segment & 4),
        saw_2: nearest_u32_to_f32(segment & 6),
        saw_1: nearest_u32_to_f32(segment & 7),
    }
}

// What the next sample starts with, lines 141 to 144: the four saws, each about zero. That the starts are the segment's is of two values, of which the state
// has only one: it is no invariant. The products go from the left, as the source's.
fn next_sample(e: Reached, starts: Starts, saws: Saws) -> f32
    requires { starts ≡ starts_of e.segment }
    ensures { result ≡ next_sample e saws }
{
    let of_8 = e.next_sample + (e.phase - 4.0) * saws.saw_8_gain * 0.125;
    let of_4 = of_8 + (e.phase - starts.saw_4 - 2.0) * saws.saw_4_gain * 0.25;
    let of_2 = of_4 + (e.phase - starts.saw_2 - 1.0) * saws.saw_2_gain * 0.5;
    of_2 + (e.phase - starts.saw_1 - 0.5) * saws.saw_1_gain
}

// The end of a sample, lines 139 to 150. It is added to what the mix buffer held.
pub(crate) fn finish(e: Reached, starts: Starts, saws: Saws, held: f32) -> Sample<State>
    requires segment_in_range { e.segment ≤ 131072 }
    requires starts_of_segment { starts ≡ starts_of e.segment }
    ensures { result ≡ finished e saws held }
{
    Sample {
        sample: held + 2.0 * e.this_sample,
        state: State {
            phase: e.phase,
            next_sample: next_sample(e, starts, saws),
            segment: e.segment as i32,
            frequency: saws.frequency,
            saw_8_gain: saws.saw_8_gain,
            saw_4_gain: saws.saw_4_gain,
            saw_2_gain: saws.saw_2_gain,
            saw_1_gain: saws.saw_1_gain,
        },
        counts: Counts {
            cycles: e.cycles,
            rises: e.rises,
            falls: 0,
            cuts: 0,
            late_rises: 0,
            late_falls: 0,
        },
    }
}

// Lines 107 to 150.
pub(crate) fn sample(s: State, saws: Saws, held: f32) -> Sample<State>
    ensures { result ≡ sample_of s saws held }
{
    let e = reach(s, saws);
    finish(e, starts_of(e.segment), saws, held)
}
