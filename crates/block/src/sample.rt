// What one sample of an oscillator gives, beside the sample itself.
use crate::Counts;

#[derive(Clone, Copy)]
pub struct Sample<S> {
    pub state: S,
    pub sample: f32,
    pub counts: Counts,
}
