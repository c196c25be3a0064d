// How the waveform crosses: variable_shape_oscillator.rs, lines 149 to 173.
ghost use Rattle.variable_shape.specs.Waveform.{naive_of};
ghost use Rattle.variable_shape.specs.Sample.{rise_of, fall_of};
ghost use Rattle.variable_shape.specs.Private.{rises, falls};

use crate::waveform::{Waveform, naive};
use edges::{Crossing, Edge, triangle};

impl Crossing for Waveform {
    ghost width_of = { λ w. w.pw };

    ghost level_of = { naive_of };

    ghost rise_of = { rise_of };

    ghost fall_of = { fall_of };

    fn width(self) -> f32 {
        self.pw
    }

    fn level(self, phase: f32) -> f32 {
        naive(self, phase)
    }

    // Lines 149 to 157. t is an infinity or a NaN where the width has moved up by just the frequency, as in the source.
    fn rise(self, e: Edge) -> Edge {
        let t = triangle::rise_time(e.phase, self.pw, self.previous_pw, self.slave_frequency);
        let step = triangle::triangle_step(
            self.slope_up,
            self.slope_down,
            self.slave_frequency,
            self.triangle_amount,
        );
        let this_sample = e.this_sample + self.square_amount * polyblep::this_blep_sample(t)
            - step * polyblep::this_integrated_blep_sample(t);
        let next_sample = e.next_sample + self.square_amount * polyblep::next_blep_sample(t)
            - step * polyblep::next_integrated_blep_sample(t);
        edges::risen(e, t, this_sample, next_sample)
    }

    // Lines 164 to 173: t is taken from the wrapped phase, and does not know of the width.
    fn fall(self, e: Edge) -> Edge {
        let phase = e.phase - 1.0;
        let t = phase / self.slave_frequency;
        let step = triangle::triangle_step(
            self.slope_up,
            self.slope_down,
            self.slave_frequency,
            self.triangle_amount,
        );
        let this_sample = e.this_sample
            - (1.0 - self.triangle_amount) * polyblep::this_blep_sample(t)
            + step * polyblep::this_integrated_blep_sample(t);
        let next_sample = e.next_sample
            - (1.0 - self.triangle_amount) * polyblep::next_blep_sample(t)
            + step * polyblep::next_integrated_blep_sample(t);
        edges::fallen(e, phase, t, this_sample, next_sample)
    }

    ghost rises = { rises };

    ghost falls = { falls };
}
