// What a call answers and counts, for every oscillator.
#![tactic(auto)]

ghost use Rattle.std.specs.Prelude.{◌≡◌};
ghost use Rattle.block.specs.Counting.{no_counts, plus, modulo32, one_if, late as is_late_of};

mod refusal;
mod sample;
mod voice;

// What refuses a call, and the numbers of answers.
pub use refusal::{Refusal, index, number};
// What a sample leaves.
pub use sample::Sample;
// A call of any oscillator.
pub use voice::{Voice, render};

// The rises and falls are those that are not late. The late ones are kept apart, since a balance needs to know which they are.
#[derive(Clone, Copy)]
pub struct Counts {
    pub cycles: u32,
    pub rises: u32,
    pub falls: u32,
    pub cuts: u32,
    pub late_rises: u32,
    pub late_falls: u32,
}

// What a refused call counts, and what a block starts from.
pub fn none() -> Counts
    ensures { result ≡ no_counts }
{
    Counts {
        cycles: 0,
        rises: 0,
        falls: 0,
        cuts: 0,
        late_rises: 0,
        late_falls: 0,
    }
}

// The sum of two, each count modulo 2^32. A block's counts never come near that.
pub fn sum(a: Counts, b: Counts) -> Counts
    ensures { result ≡ modulo32 (plus a b) }
{
    Counts {
        cycles: a.cycles.wrapping_add(b.cycles),
        rises: a.rises.wrapping_add(b.rises),
        falls: a.falls.wrapping_add(b.falls),
        cuts: a.cuts.wrapping_add(b.cuts),
        late_rises: a.late_rises.wrapping_add(b.late_rises),
        late_falls: a.late_falls.wrapping_add(b.late_falls),
    }
}

// The fifth number that is told: the late rises and the late falls together, modulo 2^32 too.
pub fn late(c: Counts) -> u32
    ensures { result ≡ is_late_of c }
{
    c.late_rises.wrapping_add(c.late_falls)
}

// A bool counted.
pub fn one_if(b: bool) -> u32
    ensures { result ≡ one_if b }
{
    u32::from(b)
}
