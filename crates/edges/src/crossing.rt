// One sample of a slave, with a hard sync reset or without: the crossing loop and what stands before and after it, said once for the waveforms of the
// super square and the variable shape.
ghost use Rattle.std.specs.Prelude.{◌≡◌, true, cond, Float};
ghost use Rattle.std.specs.Float.Ieee.{lt};
ghost use Rattle.floats.specs.F32.{one32};
ghost use Rattle.edges.specs.declared.Edge.{Edge as EdgeOf};
ghost use Rattle.edges.specs.CrossingLoop.{Rises, Falls, crossing_loop};
ghost use Rattle.edges.specs.Private.{Crossable, reset_start, plain_start, begun, crossed_if, end_of};
ghost use Rattle.edges.specs.Synced.{step_of, passed_of};

use crate::{Edge, at_reset, cut, start};

// A waveform at one sample: a low one rises at its width, a high one falls at 1.
pub trait Crossing: Copy {
    ghost width_of: { Self → Float };

    // The waveform without its smoothing.
    ghost level_of: { Self → Float → Float };

    ghost rise_of: { Self → EdgeOf → EdgeOf };

    ghost fall_of: { Self → EdgeOf → EdgeOf };

    fn width(self) -> f32
        ensures { result ≡ width_of self };

    fn level(self, phase: f32) -> f32
        ensures { result ≡ level_of self phase };

    // Up through the width. The phase may have passed 1 too: the fall comes after.
    fn rise(self, e: Edge) -> Edge
        ensures { result ≡ rise_of self e };

    // Down through 1, where the phase wraps.
    fn fall(self, e: Edge) -> Edge
        ensures { result ≡ fall_of self e };

    ghost rises: { (w : Self) (e : EdgeOf) → Rises e (rise_of w e) };

    ghost falls: { (w : Self) (e : EdgeOf) → Falls e (fall_of w e) };
}

// The slave as the sample before left it, and its step.
#[derive(Clone, Copy)]
pub struct Slave {
    pub phase: f32,
    pub high: bool,
    pub next_sample: f32,
    pub frequency: f32,
}

// The master after its step, and that step.
#[derive(Clone, Copy)]
pub struct Master {
    pub phase: f32,
    pub frequency: f32,
}

// A sample before its crossings: the master's phase and the slave's edge after their steps, and whether the crossing loop runs. After a reset the
// slave starts anew at `restart`; without one it goes on from where its crossings leave it.
#[derive(Clone, Copy)]
pub struct Start {
    pub master_phase: f32,
    pub restart: Option<f32>,
    pub edge: Edge,
    pub crosses: bool,
}

// A sample after its crossings: the master's phase, the edge with the samples that it makes, how the slave is left, and what is counted beside the crossings.
#[derive(Clone, Copy)]
pub struct Passed {
    pub master_phase: f32,
    pub edge: Edge,
    pub slave_phase: f32,
    pub high: bool,
    pub cycles: u32,
    pub cuts: u32,
}

// Where the source's loop around the crossings breaks: a high slave has not come to 1, nor a low one to its width. A NaN has, and crosses.
pub fn is_uncrossed(high: bool, phase: f32, width: f32) -> bool
    ensures { result ≡ cond high (lt phase one32) (lt phase width) }
{
    if high { phase < 1.0 } else { phase < width }
}

// The source's loop around the two crossings, super_square_oscillator.rs, lines 98 to 119, and variable_shape_oscillator.rs, lines 144 to 175, a crossing
// at a time. It ends because a step is less than a cycle: a low slave may rise, fall and rise again (P10), and no more. `Crossable` is of the width and the
// edge together, and so no invariant of one of them.
fn cross<W: Crossing>(w: W, edge: Edge) -> Edge
    requires { Crossable (W.width_of w) edge }
    ensures { result ≡ crossing_loop (W.width_of w) (W.rise_of w) (W.fall_of w) edge }
{
    let mut e = edge;
    while !is_uncrossed(e.high, e.phase, w.width()) {
        if e.high {
            e = w.fall(e);
        } else {
            e = w.rise(e);
        }
    }
    e
}

// The slave's step, which comes after the reset in the source. A reset reads the phase as it was before.
fn step(slave: Slave) -> Edge
    ensures { result ≡ step_of slave }
{
    start(slave.phase + slave.frequency, slave.high, slave.next_sample)
}

// The start of a sample whose master wrapped, to this phase. Where no transition falls before the reset, the slave's step crosses nothing: the reset
// puts its phase back.
fn reset_start<W: Crossing>(w: W, slave: Slave, master: Master) -> Start
    ensures { result ≡ reset_start (W.width_of w) (W.level_of w) slave master.phase master.frequency }
{
    let time = master.phase / master.frequency;
    let found = at_reset(slave.phase, slave.high, slave.frequency, w.width(), time);
    Start {
        master_phase: master.phase,
        restart: Some(time * slave.frequency),
        edge: cut(step(slave), w.level(found.slave_phase), time),
        crosses: found.transition,
    }
}

// Of one whose master did not.
fn plain_start(slave: Slave, master_phase: f32) -> Start
    ensures { result ≡ plain_start slave master_phase }
{
    Start {
        master_phase,
        restart: None,
        edge: step(slave),
        crosses: true,
    }
}

// A master's phase of exactly 1 wraps, and so resets. Without sync it may stand there and never does.
fn begin<W: Crossing>(w: W, slave: Slave, sync: bool, master: Master) -> Start
    ensures { result ≡ begun sync (W.width_of w) (W.level_of w) slave master.phase master.frequency }
{
    if sync & (master.phase >= 1.0) {
        let wrapped = Master {
            phase: master.phase - 1.0,
            ..master
        };
        reset_start(w, slave, wrapped)
    } else {
        plain_start(slave, master.phase)
    }
}

// With a reset or without, the loop is called here alone, so that it is compiled in its place.
fn cross_if<W: Crossing>(w: W, crosses: bool, e: Edge) -> Edge
    requires { Crossable (W.width_of w) e }
    ensures { result ≡ crossed_if crosses (crossing_loop (W.width_of w) (W.rise_of w) (W.fall_of w)) e }
{
    if crosses { cross(w, e) } else { e }
}

// The cycles of a sample without a reset. Without sync it is the slave's wraps that count, and it falls where it wraps.
fn free_cycles(sync: bool, falls: u32) -> u32
    ensures { result ≡ cond sync 0 falls }
{
    if sync { 0 } else { falls }
}

// After a reset the slave is low and starts anew, and a high one is cut.
fn leave(sync: bool, start: Start, e: Edge) -> Passed
    ensures { result ≡ end_of sync start e }
{
    match start.restart {
        Some(phase) => Passed {
            master_phase: start.master_phase,
            edge: e,
            slave_phase: phase,
            high: false,
            cycles: 1,
            cuts: block::one_if(e.high),
        },
        None => Passed {
            master_phase: start.master_phase,
            edge: e,
            slave_phase: e.phase,
            high: e.high,
            cycles: free_cycles(sync, e.crossings.falls),
            cuts: 0,
        },
    }
}

// A sample from the slave's and the master's step: super_square_oscillator.rs, lines 73 to 125, and variable_shape_oscillator.rs, lines 112 to 181. The master's
// phase wraps here. The crossing loop stands here once for both ways.
pub fn pass<W: Crossing>(w: W, slave: Slave, sync: bool, master: Master) -> Passed
    requires { Crossable (W.width_of w) (step_of slave) }
    ensures { result ≡ passed_of sync (W.width_of w) (W.level_of w) (crossing_loop (W.width_of w) (W.rise_of w) (W.fall_of w)) slave master.phase master.frequency }
{
    let start = begin(w, slave, sync, master);
    let uncrossed = start.edge;
    let e = cross_if(w, start.crosses, uncrossed);
    leave(sync, start, e)
}
