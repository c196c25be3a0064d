// The string synth over lent arrays of 32-bit words, for the face.
#![tactic(auto)]

ghost use Rattle.std.specs.Prelude.{◌≡◌, cond, Some, None, false};
ghost use Rattle.string_synth_face.specs.Words.{state_of, words_of, init_words, render_face};

use string_synth::{Parameters, State};
use words::Words;

// Fields and words in the header's order, and answers by number: the C interface has them so, of each oscillator for itself.
// Any words are read: the state may lie outside its range.
fn state_of(w: [u32; 8]) -> State
    ensures { result ≡ state_of w }
{
    State {
        phase: floats::from_bits(w[0]),
        next_sample: floats::from_bits(w[1]),
        segment: words::signed(w[2]),
        frequency: floats::from_bits(w[3]),
        saw_8_gain: floats::from_bits(w[4]),
        saw_4_gain: floats::from_bits(w[5]),
        saw_2_gain: floats::from_bits(w[6]),
        saw_1_gain: floats::from_bits(w[7]),
    }
}

// A NaN, which only `next_sample` can be, becomes the word 7fc00000.
fn words_of(s: State) -> [u32; 8]
    ensures { result ≡ words_of s }
{
    [
        floats::to_bits(s.phase),
        floats::to_bits(s.next_sample),
        words::unsigned(s.segment),
        floats::to_bits(s.frequency),
        floats::to_bits(s.saw_8_gain),
        floats::to_bits(s.saw_4_gain),
        floats::to_bits(s.saw_2_gain),
        floats::to_bits(s.saw_1_gain),
    ]
}

// The words in the order of the fields.
struct InOrder;

impl Words<8> for InOrder {
    type State = State;

    ghost state_of = { state_of };

    ghost words_of = { words_of };

    ghost is_no_state = { λ w. false };

    fn read(w: [u32; 8]) -> Option<State>
        ensures { result ≡ cond (false) None (Some (state_of w)) }
    {
        Some(state_of(w))
    }

    fn write(s: State) -> [u32; 8]
        ensures { result ≡ words_of s }
    {
        words_of(s)
    }
}

// Whatever the words were, they are those of the initial state.
pub fn init(words: &mut [u32; 8])
    ensures { words.new ≡ init_words }
{
    *words = words_of(string_synth::init());
}

// No word stands for a bool, so any are a state, in its range or not: the oscillator's own checks say.
pub fn render(
    words: &mut [u32; 8],
    frequency: f32,
    registration: &[f32],
    gain: f32,
    out: &mut [f32],
    res: &mut [u32; 7],
) -> u32
    ensures { record { answer = result; words = words.new; result = res.new; samples = out.new } ≡ render_face words.old frequency registration.now gain out.old }
{
    let parameters = Parameters {
        frequency,
        registration,
        gain,
    };
    words::render::<InOrder, _, _>(words, parameters, out, res)
}
