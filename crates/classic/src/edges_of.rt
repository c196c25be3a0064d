// What a sample crosses, in the source's order: oscillator.rs, lines 115 to 125, 144 to 168 and 180 to 202. `high` may change at the width, by a crossing or
// by the width's own move, and at a wrap. Each change is counted, whichever line makes it. What goes from line to line is the Edge; the slopes, the frequency
// and the width beside it are the source's own variables, of which each function takes those of its lines.
ghost use Rattle.std.specs.Prelude.{◌≡◌};
ghost use Rattle.classic.specs.Edges.{turned, saw_wrap, saw_edges, triangle_cross, triangle_at_width, triangle_wrap, triangle_edges, square_cross, square_at_width, square_wrap, square_edges, edges_of};

use crate::OscillatorShape;
use edges::{Crossings, Edge};

// e with `high` as it is set: a rise or a fall where that changes it.
fn turn(e: Edge, phase: f32, high: bool, this_sample: f32, next_sample: f32) -> Edge
    ensures { result ≡ turned phase high this_sample next_sample e }
{
    Edge {
        phase,
        high,
        this_sample,
        next_sample,
        crossings: Crossings {
            rises: e
                .crossings
                .rises
                .wrapping_add(block::one_if(!e.high & high)),
            falls: e
                .crossings
                .falls
                .wrapping_add(block::one_if(e.high & !high)),
            ..e.crossings
        },
        ..e
    }
}

// Lines 116 to 119: the saw falls by 1 where the phase wraps, and `high` means nothing.
fn saw_wrap(e: Edge, frequency: f32) -> Edge
    ensures { result ≡ saw_wrap frequency e }
{
    let phase = e.phase - 1.0;
    let t = phase / frequency;
    Edge {
        phase,
        this_sample: e.this_sample - polyblep::this_blep_sample(t),
        next_sample: e.next_sample - polyblep::next_blep_sample(t),
        ..e
    }
}

// Line 115.
fn saw_edges(e: Edge, frequency: f32) -> Edge
    ensures { result ≡ saw_edges frequency e }
{
    if e.phase >= 1.0 {
        saw_wrap(e, frequency)
    } else {
        e
    }
}

// Lines 145 to 152: the slope changes at the width. t is negative where the width has overtaken the phase.
fn triangle_cross(e: Edge, slopes: f32, frequency: f32, pw: f32) -> Edge
    ensures { result ≡ triangle_cross slopes frequency pw e }
{
    let t = (e.phase - pw) / frequency;
    let discontinuity = slopes * frequency;
    let this_sample = e.this_sample - polyblep::this_integrated_blep_sample(t) * discontinuity;
    let next_sample = e.next_sample - polyblep::next_integrated_blep_sample(t) * discontinuity;
    turn(e, e.phase, e.phase < pw, this_sample, next_sample)
}

// Lines 155 to 160: it changes back at the wrap, and the phase is before the width again.
fn triangle_wrap(e: Edge, slopes: f32, frequency: f32) -> Edge
    ensures { result ≡ triangle_wrap slopes frequency e }
{
    let phase = e.phase - 1.0;
    let t = phase / frequency;
    let discontinuity = slopes * frequency;
    let this_sample = e.this_sample + polyblep::this_integrated_blep_sample(t) * discontinuity;
    let next_sample = e.next_sample + polyblep::next_integrated_blep_sample(t) * discontinuity;
    turn(e, phase, true, this_sample, next_sample)
}

// Line 144.
fn triangle_width(e: Edge, slopes: f32, frequency: f32, pw: f32) -> Edge
    ensures { result ≡ triangle_at_width slopes frequency pw e }
{
    if e.high ^ (e.phase < pw) {
        triangle_cross(e, slopes, frequency, pw)
    } else {
        e
    }
}

// Lines 144 to 160.
fn triangle_edges(e: Edge, slopes: f32, frequency: f32, pw: f32) -> Edge
    ensures { result ≡ triangle_edges slopes frequency pw e }
{
    let crossed = triangle_width(e, slopes, frequency, pw);
    if crossed.phase >= 1.0 {
        triangle_wrap(crossed, slopes, frequency)
    } else {
        crossed
    }
}

// Lines 181 to 188: a rise of 1 at the width, also where the width has overtaken the phase, and `high` turns false.
fn square_cross(e: Edge, frequency: f32, pw: f32) -> Edge
    ensures { result ≡ square_cross frequency pw e }
{
    let t = (e.phase - pw) / frequency;
    let discontinuity = 1.0;
    let this_sample = e.this_sample + polyblep::this_blep_sample(t) * discontinuity;
    let next_sample = e.next_sample + polyblep::next_blep_sample(t) * discontinuity;
    turn(e, e.phase, e.phase >= pw, this_sample, next_sample)
}

// Lines 191 to 195: a fall of 1 at the wrap.
fn square_wrap(e: Edge, frequency: f32) -> Edge
    ensures { result ≡ square_wrap frequency e }
{
    let phase = e.phase - 1.0;
    let t = phase / frequency;
    let this_sample = e.this_sample - polyblep::this_blep_sample(t);
    let next_sample = e.next_sample - polyblep::next_blep_sample(t);
    turn(e, phase, false, this_sample, next_sample)
}

// Line 180.
fn square_width(e: Edge, frequency: f32, pw: f32) -> Edge
    ensures { result ≡ square_at_width frequency pw e }
{
    if e.high ^ (e.phase >= pw) {
        square_cross(e, frequency, pw)
    } else {
        e
    }
}

// Lines 180 to 195.
fn square_edges(e: Edge, frequency: f32, pw: f32) -> Edge
    ensures { result ≡ square_edges frequency pw e }
{
    let crossed = square_width(e, frequency, pw);
    if crossed.phase >= 1.0 {
        square_wrap(crossed, frequency)
    } else {
        crossed
    }
}

// The three groups of line 113.
pub(crate) fn edges_of(e: Edge, shape: OscillatorShape, frequency: f32, pw: f32) -> Edge
    ensures { result ≡ edges_of shape frequency pw e }
{
    match shape {
        OscillatorShape::ImpulseTrain | OscillatorShape::Saw => saw_edges(e, frequency),
        OscillatorShape::Triangle => triangle_edges(e, 2.0 + 2.0, frequency, pw),
        OscillatorShape::Slope => { triangle_edges(e, 1.0 / pw + 1.0 / (1.0 - pw), frequency, pw) }
        _ => square_edges(e, frequency, pw),
    }
}
