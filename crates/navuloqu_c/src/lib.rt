// The archive for C: every function of `navuloqu`, under the name that include/navuloqu.h declares, and with the same contract. An archive exports the
// functions of its own crate alone, and a crate is either a library or an archive.
#![tactic(auto)]

pub mod classic_calls;
pub mod nes_triangle_calls;
pub mod stem_calls;
pub mod string_synth_calls;
pub mod super_square_calls;
pub mod variable_saw_calls;
pub mod variable_shape_calls;
