// The face for other languages: one function for `init` and one for `render` of each oscillator, over lent arrays of 32-bit words, and one that writes
// a stem. Each is its oscillator's own face, or `wave`, under a name of the archive. `navuloqu_c` exports them to C, and include/navuloqu.h declares them.
#![tactic(auto)]

pub mod classic_calls;
pub mod nes_triangle_calls;
pub mod stem_calls;
pub mod string_synth_calls;
pub mod super_square_calls;
pub mod variable_saw_calls;
pub mod variable_shape_calls;
