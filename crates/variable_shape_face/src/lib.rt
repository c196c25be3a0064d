// The variable shape over lent arrays of 32-bit words, for the face.
#![tactic(auto)]

ghost use Rattle.std.specs.Prelude.{◌≡◌, cond, set, Some, None, get_or};
ghost use Rattle.words.specs.Face.{no_bool};
ghost use Rattle.variable_shape_face.specs.Words.{state_of, words_of, init_words, render_face, set_face};

use variable_shape::{Parameters, State};
use words::Words;

// Fields and words in the header's order, and answers by number: the C interface has them so, of each oscillator for itself.
// Any words are read. Whether the one for `high` stands for a bool is asked before a block, and does not matter to the master's phase.
fn state_of(w: [u32; 10]) -> State
    ensures { result ≡ state_of w }
{
    State {
        master_phase: floats::from_bits(w[0]),
        slave_phase: floats::from_bits(w[1]),
        next_sample: floats::from_bits(w[2]),
        previous_pw: floats::from_bits(w[3]),
        high: w[4] == 1,
        master_frequency: floats::from_bits(w[5]),
        slave_frequency: floats::from_bits(w[6]),
        pw: floats::from_bits(w[7]),
        waveshape: floats::from_bits(w[8]),
        phase_modulation: floats::from_bits(w[9]),
    }
}

// A NaN, which only `next_sample` can be, becomes the word 7fc00000.
fn words_of(s: State) -> [u32; 10]
    ensures { result ≡ words_of s }
{
    [
        floats::to_bits(s.master_phase),
        floats::to_bits(s.slave_phase),
        floats::to_bits(s.next_sample),
        floats::to_bits(s.previous_pw),
        block::one_if(s.high),
        floats::to_bits(s.master_frequency),
        floats::to_bits(s.slave_frequency),
        floats::to_bits(s.pw),
        floats::to_bits(s.waveshape),
        floats::to_bits(s.phase_modulation),
    ]
}

// The words in the order of the fields.
struct InOrder;

impl Words<10> for InOrder {
    type State = State;

    ghost state_of = { state_of };

    ghost words_of = { words_of };

    ghost is_no_state = { λ w. no_bool (get_or w 4 0) };

    fn read(w: [u32; 10]) -> Option<State>
        ensures { result ≡ cond (no_bool (get_or w 4 0)) None (Some (state_of w)) }
    {
        if words::no_bool(w[4]) {
            None
        } else {
            Some(state_of(w))
        }
    }

    fn write(s: State) -> [u32; 10]
        ensures { result ≡ words_of s }
    {
        words_of(s)
    }
}

// Whatever the words were, they are those of the initial state.
pub fn init(words: &mut [u32; 10])
    ensures { words.new ≡ init_words }
{
    *words = words_of(variable_shape::init());
}

// Words whose one for `high` stands for no bool are no state: refused as a bad one, and not read.
pub fn render(
    words: &mut [u32; 10],
    master_frequency: f32,
    frequency: f32,
    pw: f32,
    waveshape: f32,
    phase_modulation: f32,
    sync: bool,
    phase_output: bool,
    out: &mut [f32],
    res: &mut [u32; 7],
) -> u32
    ensures { record { answer = result; words = words.new; result = res.new; samples = out.new } ≡ render_face words.old master_frequency frequency pw waveshape phase_modulation sync phase_output out.old }
{
    let parameters = Parameters {
        master_frequency,
        frequency,
        pw,
        waveshape,
        phase_modulation,
        sync,
        phase_output,
    };
    words::render::<InOrder, _, _>(words, parameters, out, res)
}

// The first word alone is stored, so that the others stay bit by bit as they were, whatever they are; after a refusal it stays too.
pub fn set_master_phase(words: &mut [u32; 10], phase: f32) -> u32
    ensures { record { words = words.new; number = result } ≡ set_face words.old phase }
{
    let mut state = state_of(*words);
    let answer = variable_shape::set_master_phase_in(&mut state, phase);
    if answer.is_ok() {
        words[0] = floats::to_bits(state.master_phase);
    }
    block::number(answer)
}
