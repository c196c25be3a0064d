// The classic started at a sample rate in its two forms, from the same words.
use crate::fields::{self, Fields};
use crate::{Line, put_left};

// The line's end: exported and on a lent state, each with its answer and the words that it left.
pub(crate) fn put_forms(line: &mut Line, words: [u32; 9], rate: f32) {
    let mut left = words;
    let number = navuloqu::classic_calls::navuloqu_3_classic_init(&mut left, rate);
    put_left(line, number, &left, b' ');
    let mut state = fields::classic_of(words);
    let answer = classic::init(&mut state, rate);
    put_left(line, block::number(answer), &state.fields(), b'\n');
}
