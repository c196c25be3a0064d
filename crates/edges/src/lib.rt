// A sample in the making, for the oscillators that rise and fall: what it has crossed so far, and a hard sync reset of it.
#![tactic(auto)]

ghost use Rattle.std.specs.Prelude.{◌≡◌};
ghost use Rattle.edges.specs.Counted.{is_late, start_of, rose as rose_of, fell_if, risen_of, fallen_of, wrapped_of, counts_of};
ghost use Rattle.edges.specs.Sync.{slave_at_reset, wrap_once, transition_during_reset, at_reset_of, cut_edge};

use block::Counts;

mod crossing;
pub mod triangle;

// A sample with its crossings, for any waveform.
pub use crossing::{Crossing, Master, Passed, Slave, is_uncrossed, pass};

// How often `high` has turned true and false by a crossing so far, those that are late apart. Only the functions here make them: an oscillator
// hands them on in its edge.
#[derive(Clone, Copy)]
pub struct Crossings {
    pub rises: u32,
    pub falls: u32,
    pub late_rises: u32,
    pub late_falls: u32,
}

// The slave's phase and side, the sample and what the next one starts with; how many samples ago a master's wrap has reset the sample, if one has; and the
// crossings so far.
#[derive(Clone, Copy)]
pub struct Edge {
    pub phase: f32,
    pub high: bool,
    pub this_sample: f32,
    pub next_sample: f32,
    pub reset: Option<f32>,
    pub crossings: Crossings,
}

// Whether a crossing t samples ago came after the reset. No reset is not one 0 samples ago: t is negative where a width moves.
fn is_late(e: Edge, t: f32) -> bool
    ensures { result ≡ is_late e t }
{
    e.reset.is_some_and(|time| t < time)
}

// The start of a sample: what the one before left for it is `this_sample`, and nothing is crossed yet.
pub fn start(phase: f32, high: bool, this_sample: f32) -> Edge
    ensures { result ≡ start_of phase high this_sample }
{
    Edge {
        phase,
        high,
        this_sample,
        next_sample: 0.0,
        reset: None,
        crossings: Crossings {
            rises: 0,
            falls: 0,
            late_rises: 0,
            late_falls: 0,
        },
    }
}

// One rise more, late or not. Modulo 2^32 any count may be given; a sample never rises more than twice.
fn rose(c: Crossings, late: bool) -> Crossings
    ensures { result ≡ rose_of late c }
{
    Crossings {
        rises: c.rises.wrapping_add(block::one_if(!late)),
        late_rises: c.late_rises.wrapping_add(block::one_if(late)),
        ..c
    }
}

// One fall more where it was high, likewise.
fn fell_if(high: bool, c: Crossings, late: bool) -> Crossings
    ensures { result ≡ fell_if high late c }
{
    Crossings {
        falls: c.falls.wrapping_add(block::one_if(high & !late)),
        late_falls: c.late_falls.wrapping_add(block::one_if(high & late)),
        ..c
    }
}

// e after a rise t samples ago, with the samples that it makes. They come one by one, as do those of a fall and a wrap: a struct of them would be the
// Edge itself, half filled.
pub fn risen(e: Edge, t: f32, this_sample: f32, next_sample: f32) -> Edge
    ensures { result ≡ risen_of t this_sample next_sample e }
{
    Edge {
        high: true,
        this_sample,
        next_sample,
        crossings: rose(e.crossings, is_late(e, t)),
        ..e
    }
}

// e after a fall t samples ago, whose phase has wrapped, likewise.
pub fn fallen(e: Edge, phase: f32, t: f32, this_sample: f32, next_sample: f32) -> Edge
    ensures { result ≡ fallen_of phase t this_sample next_sample e }
{
    Edge {
        phase,
        high: false,
        this_sample,
        next_sample,
        crossings: fell_if(true, e.crossings, is_late(e, t)),
        ..e
    }
}

// e after a wrap t samples ago that asks nothing of the side: only what was high has fallen.
pub fn wrapped(e: Edge, phase: f32, t: f32, this_sample: f32, next_sample: f32) -> Edge
    ensures { result ≡ wrapped_of phase t this_sample next_sample e }
{
    Edge {
        phase,
        high: false,
        this_sample,
        next_sample,
        crossings: fell_if(e.high, e.crossings, is_late(e, t)),
        ..e
    }
}

// The counts at the end of a sample.
pub fn counts(cycles: u32, e: Edge, cuts: u32) -> Counts
    ensures { result ≡ counts_of cycles e.crossings cuts }
{
    Counts {
        cycles,
        rises: e.crossings.rises,
        falls: e.crossings.falls,
        cuts,
        late_rises: e.crossings.late_rises,
        late_falls: e.crossings.late_falls,
    }
}

// Where a hard sync reset finds the slave, and whether it had crossed by then.
#[derive(Clone, Copy)]
pub struct AtReset {
    pub slave_phase: f32,
    pub transition: bool,
}

// Where the slave's phase had come to at the reset, `time` samples ago; it may have passed 1.
fn slave_at_reset(slave_phase: f32, slave_frequency: f32, time: f32) -> f32
    ensures { result ≡ slave_at_reset slave_phase slave_frequency time }
{
    slave_phase + (1.0 - time) * slave_frequency
}

// A phase of exactly 1 wraps too. Once is enough: no phase comes to 2 in a sample.
fn wrap_once(phase: f32) -> f32
    ensures { result ≡ wrap_once phase }
{
    if phase >= 1.0 { phase - 1.0 } else { phase }
}

// By a wrap, from either side, or by a low slave's coming to its width. A high one has no width to come to.
fn transition_during_reset(high: bool, width: f32, reached: f32) -> bool
    ensures { result ≡ transition_during_reset high width reached }
{
    (reached >= 1.0) | (!high & (wrap_once(reached) >= width))
}

// super_square_oscillator.rs, lines 77 to 88, and variable_shape_oscillator.rs, lines 118 to 127. The phase and the side are those before the
// slave's step.
pub fn at_reset(
    slave_phase: f32,
    high: bool,
    slave_frequency: f32,
    width: f32,
    time: f32,
) -> AtReset
    ensures { result ≡ at_reset_of slave_phase high slave_frequency width time }
{
    let reached = slave_at_reset(slave_phase, slave_frequency, time);
    AtReset {
        slave_phase: wrap_once(reached),
        transition: transition_during_reset(high, width, reached),
    }
}

// A reset drops the waveform from `value` to 0 in between two samples, and both are smoothed. The crossing loop may still follow: phase, side and
// crossings are left to it, and it is told when the reset was.
pub fn cut(e: Edge, value: f32, time: f32) -> Edge
    ensures { result ≡ cut_edge value time e }
{
    Edge {
        this_sample: e.this_sample - value * polyblep::this_blep_sample(time),
        next_sample: e.next_sample - value * polyblep::next_blep_sample(time),
        reset: Some(time),
        ..e
    }
}
