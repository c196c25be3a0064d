// The variable shape's master phase set in its three forms, from the same words.
use crate::fields::{self, Fields};
use crate::{Line, put_left};

// The line's beginning: exported, by value and lent, each with its answer and the words that it left.
pub(crate) fn put_forms(line: &mut Line, words: [u32; 10], phase: f32) {
    let mut left = words;
    let number = navuloqu::variable_shape_calls::navuloqu_3_variable_shape_set_master_phase(
        &mut left, phase,
    );
    put_left(line, number, &left, b' ');
    let given = fields::variable_shape_of(words);
    let answer = variable_shape::set_master_phase(given, phase);
    let set = answer.unwrap_or(given);
    put_left(line, block::number(answer), &set.fields(), b' ');
    let mut lent = given;
    let answer = variable_shape::set_master_phase_in(&mut lent, phase);
    put_left(line, block::number(answer), &lent.fields(), b' ');
}
