// The variable saw over lent arrays of 32-bit words, for the face.
#![tactic(auto)]

ghost use Rattle.std.specs.Prelude.{◌≡◌, cond, Some, None, get_or};
ghost use Rattle.words.specs.Face.{no_bool};
ghost use Rattle.variable_saw_face.specs.Words.{state_of, words_of, init_words, render_face};

use variable_saw::{Parameters, State};
use words::Words;

// Fields and words in the header's order, and answers by number: the C interface has them so, of each oscillator for itself.
// Any words are read. Whether the one for `high` stands for a bool is asked before.
fn state_of(w: [u32; 7]) -> State
    ensures { result ≡ state_of w }
{
    State {
        phase: floats::from_bits(w[0]),
        next_sample: floats::from_bits(w[1]),
        previous_pw: floats::from_bits(w[2]),
        high: w[3] == 1,
        frequency: floats::from_bits(w[4]),
        pw: floats::from_bits(w[5]),
        waveshape: floats::from_bits(w[6]),
    }
}

// A NaN, which only `next_sample` can be, becomes the word 7fc00000.
fn words_of(s: State) -> [u32; 7]
    ensures { result ≡ words_of s }
{
    [
        floats::to_bits(s.phase),
        floats::to_bits(s.next_sample),
        floats::to_bits(s.previous_pw),
        block::one_if(s.high),
        floats::to_bits(s.frequency),
        floats::to_bits(s.pw),
        floats::to_bits(s.waveshape),
    ]
}

// The words in the order of the fields.
struct InOrder;

impl Words<7> for InOrder {
    type State = State;

    ghost state_of = { state_of };

    ghost words_of = { words_of };

    ghost is_no_state = { λ w. no_bool (get_or w 3 0) };

    fn read(w: [u32; 7]) -> Option<State>
        ensures { result ≡ cond (no_bool (get_or w 3 0)) None (Some (state_of w)) }
    {
        if words::no_bool(w[3]) {
            None
        } else {
            Some(state_of(w))
        }
    }

    fn write(s: State) -> [u32; 7]
        ensures { result ≡ words_of s }
    {
        words_of(s)
    }
}

// Whatever the words were, they are those of the initial state.
pub fn init(words: &mut [u32; 7])
    ensures { words.new ≡ init_words }
{
    *words = words_of(variable_saw::init());
}

// Words whose one for `high` stands for no bool are no state: refused as a bad one, and not read.
pub fn render(
    words: &mut [u32; 7],
    frequency: f32,
    pw: f32,
    waveshape: f32,
    out: &mut [f32],
    res: &mut [u32; 7],
) -> u32
    ensures { record { answer = result; words = words.new; result = res.new; samples = out.new } ≡ render_face words.old frequency pw waveshape out.old }
{
    let parameters = Parameters {
        frequency,
        pw,
        waveshape,
    };
    words::render::<InOrder, _, _>(words, parameters, out, res)
}
