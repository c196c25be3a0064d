// The calls of each kind, with their fields of the record, and the line of what each left.
use crate::line::{self, Line};
use crate::record;
use navuloqu::classic_calls::{navuloqu_3_classic_init, navuloqu_3_classic_render};
use navuloqu::nes_triangle_calls::navuloqu_3_nes_triangle_render;
use navuloqu::string_synth_calls::navuloqu_3_string_synth_render;
use navuloqu::super_square_calls::navuloqu_3_super_square_render;
use navuloqu::variable_saw_calls::navuloqu_3_variable_saw_render;
use navuloqu::variable_shape_calls::{
    navuloqu_3_variable_shape_render, navuloqu_3_variable_shape_set_master_phase,
};
use std::convert::AsSlice;

// The line of a call that renders: what it answers, counts and leaves of these words.
fn rendered<W: AsSlice<u32> + Copy, F: FnOnce(&mut W, &mut [f32], &mut [u32; 7]) -> u32>(
    mut words: W,
    out: &mut [f32],
    call: F,
) -> Line
    requires { F.IsAlwaysCallable call }
{
    let mut res = [0; 7];
    let answer = call(&mut words, out, &mut res);
    line::of(answer, &res, words.as_slice(), out)
}

// The line of a call that answers, and counts and renders nothing.
fn answered<W: AsSlice<u32> + Copy, F: FnOnce(&mut W) -> u32>(
    mut words: W,
    out: &[f32],
    call: F,
) -> Line
    requires { F.IsAlwaysCallable call }
{
    let answer = call(&mut words);
    line::of(answer, &[answer, 0, 0, 0, 0, 0, 0], words.as_slice(), out)
}

// A variable shape's block. Likewise below for each kind.
pub(crate) fn variable_shape(record: &[u8; 128], out: &mut [f32]) -> Line {
    rendered(record::state::<10>(record), out, |words, out, res| {
        navuloqu_3_variable_shape_render(
            words,
            record::float_at(record, 12),
            record::float_at(record, 8),
            record::float_at(record, 16),
            record::float_at(record, 20),
            record::float_at(record, 24),
            record::sync(record),
            record::phase_output(record),
            out,
            res,
        )
    })
}

// The variable saw's.
pub(crate) fn variable_saw(record: &[u8; 128], out: &mut [f32]) -> Line {
    rendered(record::state::<7>(record), out, |words, out, res| {
        navuloqu_3_variable_saw_render(
            words,
            record::float_at(record, 8),
            record::float_at(record, 16),
            record::float_at(record, 20),
            out,
            res,
        )
    })
}

// The super square's.
pub(crate) fn super_square(record: &[u8; 128], out: &mut [f32]) -> Line {
    rendered(record::state::<6>(record), out, |words, out, res| {
        navuloqu_3_super_square_render(
            words,
            record::float_at(record, 8),
            record::float_at(record, 16),
            out,
            res,
        )
    })
}

// The NES triangle's.
pub(crate) fn nes_triangle(record: &[u8; 128], out: &mut [f32]) -> Line {
    rendered(record::state::<5>(record), out, |words, out, res| {
        navuloqu_3_nes_triangle_render(
            words,
            record::float_at(record, 8),
            testing::word_at(record, 4),
            out,
            res,
        )
    })
}

// The string's; the buffer's old samples are part of its sum.
pub(crate) fn string_synth(record: &[u8; 128], out: &mut [f32]) -> Line {
    rendered(record::state::<8>(record), out, |words, out, res| {
        navuloqu_3_string_synth_render(
            words,
            record::float_at(record, 8),
            &record::registration(record)[..record::entries(record)],
            record::float_at(record, 12),
            out,
            res,
        )
    })
}

// The classic's.
pub(crate) fn classic(record: &[u8; 128], out: &mut [f32]) -> Line {
    rendered(record::state::<9>(record), out, |words, out, res| {
        navuloqu_3_classic_render(
            words,
            record::float_at(record, 8),
            record::float_at(record, 16),
            record::shape(record),
            out,
            res,
        )
    })
}

// The variable shape's master phase is set.
pub(crate) fn master_phase(record: &[u8; 128], out: &[f32]) -> Line {
    answered(record::state::<10>(record), out, |words| {
        navuloqu_3_variable_shape_set_master_phase(words, record::float_at(record, 12))
    })
}

// The classic is started at a sample rate, from the given state.
pub(crate) fn start(record: &[u8; 128], out: &[f32]) -> Line {
    answered(record::state::<9>(record), out, |words| {
        navuloqu_3_classic_init(words, record::float_at(record, 12))
    })
}
