// A new step of the NES triangle: the wrap, the jump at the step, and the corner at the bottom. Few samples have one.
ghost use Rattle.std.specs.Prelude.{◌≡◌, ◌*◌, ◌<◌, ◌≤◌};
ghost use Rattle.floats.specs.F32.{whole32, ◌⊗◌};
ghost use Rattle.nes_triangle.specs.Sample.{direction_of, step_sign, edge_of, trough_of};
ghost use Rattle.nes_triangle.specs.Private.{reached_of, turned_of};

use crate::depth::Depth;
use crate::sample::{Gains, Samples, Stepped};

// What a sample has come to when its discontinuities are behind it. A step is made in few samples: one struct for all, so that what follows is there once.
#[derive(Clone, Copy)]
pub struct Reached {
    pub phase: f32,
    pub step: u32,
    pub ascending: bool,
    pub samples: Samples,
    pub cycles: u32,
    pub rises: u32,
}

// A step or a level as a float: so small a number goes through 16 bits, of which every value is a float. That steps are so small stands in the clauses of
// those that come here, as the proof of each finds it: a type for it would be opened again at each difference and each comparison.
pub(crate) fn small(n: u32) -> f32
    requires { n < 65536 }
    ensures { result ≡ whole32 n }
{
    n as u16 as f32
}

// Up in the rising half, down in the falling one: line 89.
fn direction(next_step: u32, half: u32) -> f32
    ensures { result ≡ direction_of next_step half }
{
    if next_step < half { 1.0 } else { -1.0 }
}

// Which way the new step goes, lines 89 to 95: with 2 steps the other way round, since step 0 is the low one; else neither where the triangle turns.
fn step_sign(num_steps: u32, half: u32, next_step: u32) -> f32
    ensures { result ≡ step_sign num_steps half next_step }
{
    let discontinuity = direction(next_step, half);
    if num_steps == 2 {
        return -discontinuity;
    }
    if (next_step == 0) | (next_step == half) {
        0.0
    } else {
        discontinuity
    }
}

// The jump at a step of the NES triangle, lines 98 to 105, after the wrap and so with the phase and the step that it left.
fn edge(x: Samples, t: Stepped, num_steps_f: f32, frequency: f32, discontinuity: f32) -> Samples
    requires { t.next_step < 65536 }
    ensures { result ≡ edge_of t num_steps_f frequency discontinuity x }
{
    if t.changed & (discontinuity != 0.0) {
        let frac = t.phase * num_steps_f - small(t.next_step);
        let t = frac / (frequency * num_steps_f);
        Samples {
            this_sample: x.this_sample + polyblep::this_blep_sample(t) * discontinuity,
            next_sample: x.next_sample + polyblep::next_blep_sample(t) * discontinuity,
        }
    } else {
        x
    }
}

// Lines 89 to 105. Where the NES triangle is silent no step of it is heard, and which way it goes is not asked.
fn jump(d: Depth, g: Gains, x: Samples, t: Stepped, frequency: f32) -> Samples
    requires { t.next_step < 65536 }
    ensures { result ≡ edge_of t d.num_steps_f frequency (step_sign d.num_steps d.half t.next_step ⊗ g.nes_gain) x }
{
    if g.nes_gain != 0.0 {
        let discontinuity = step_sign(d.num_steps, d.half, t.next_step) * g.nes_gain;
        edge(x, t, d.num_steps_f, frequency, discontinuity)
    } else {
        x
    }
}

// The corner at the bottom of the naive triangle, lines 108 to 114: it turns up again, so that what `peak` takes off is added. The two differ in the time
// and in the sign: one function would take both from its caller, and be no plainer.
fn trough(x: Samples, here: bool, phase: f32, frequency: f32, discontinuity: f32) -> Samples
    ensures { result ≡ trough_of here phase frequency discontinuity x }
{
    if here & (discontinuity != 0.0) {
        let t = phase / frequency;
        Samples {
            this_sample: x.this_sample + polyblep::this_integrated_blep_sample(t) * discontinuity,
            next_sample: x.next_sample + polyblep::next_integrated_blep_sample(t) * discontinuity,
        }
    } else {
        x
    }
}

// What the parts come to. `ascending` was cleared at the top and is set by a wrap, which comes later and so decides where both happen.
// 01 counts a change of step as a rise.
pub(crate) fn come_to(t: Stepped, x: Samples, ascending: bool) -> Reached
    ensures { result ≡ reached_of t x ascending }
{
    Reached {
        phase: t.phase,
        step: t.next_step,
        ascending: t.wrap | ascending,
        samples: x,
        cycles: block::one_if(t.wrap),
        rises: block::one_if(t.changed),
    }
}

// A new step, lines 81 to 117, after the peak. The number of steps is a power of two and so the product exact: there is a wrap exactly where the phase
// has come to 1. The two ways are written out, each with what it knows of the wrap, and the jump stands in both.
pub(crate) fn turn(
    d: Depth,
    g: Gains,
    x: Samples,
    ascending: bool,
    reached: f32,
    whole: u32,
    frequency: f32,
) -> Reached
    requires { (whole < 2 * d.num_steps) × (d.num_steps ≤ 65536) }
    ensures { result ≡ turned_of d g x ascending reached whole frequency }
{
    if whole >= d.num_steps {
        let t = Stepped {
            reached,
            phase: reached - 1.0,
            next_step: whole - d.num_steps,
            changed: true,
            wrap: true,
        };
        let y = jump(d, g, x, t, frequency);
        let z = trough(y, true, t.phase, frequency, 4.0 * frequency * g.tri_gain);
        come_to(t, z, ascending)
    } else {
        let t = Stepped {
            reached,
            phase: reached,
            next_step: whole,
            changed: true,
            wrap: false,
        };
        let y = jump(d, g, x, t, frequency);
        come_to(t, y, ascending)
    }
}
