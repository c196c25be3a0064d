// The classic oscillator over lent arrays of 32-bit words, for the face.
#![tactic(auto)]

ghost use Rattle.std.specs.Prelude.{◌≡◌, cond, Some, None, get_or};
ghost use Rattle.words.specs.Face.{no_bool};
ghost use Rattle.classic.specs.Shapes.{numbered};
ghost use Rattle.classic_face.specs.Words.{state_of, words_of, init_face, render_face};
ghost use Rattle.classic_face.specs.Private.{parameters_of};

use classic::{OscillatorShape, Parameters, State};
use words::Words;

// Fields and words in the header's order, and answers by number: the C interface has them so, of each oscillator for itself.
// Any words are read. Whether the one for `high` stands for a bool is asked before a block, and does not matter to a start.
fn state_of(w: [u32; 9]) -> State
    ensures { result ≡ state_of w }
{
    State {
        phase: floats::from_bits(w[0]),
        next_sample: floats::from_bits(w[1]),
        lp_state: floats::from_bits(w[2]),
        hp_state: floats::from_bits(w[3]),
        high: w[4] == 1,
        frequency: floats::from_bits(w[5]),
        pw: floats::from_bits(w[6]),
        impulse_train_lp_coeff: floats::from_bits(w[7]),
        impulse_train_gain: floats::from_bits(w[8]),
    }
}

// A NaN, which what the samples, the filters and the impulse train carry can be, becomes the word 7fc00000.
fn words_of(s: State) -> [u32; 9]
    ensures { result ≡ words_of s }
{
    [
        floats::to_bits(s.phase),
        floats::to_bits(s.next_sample),
        floats::to_bits(s.lp_state),
        floats::to_bits(s.hp_state),
        block::one_if(s.high),
        floats::to_bits(s.frequency),
        floats::to_bits(s.pw),
        floats::to_bits(s.impulse_train_lp_coeff),
        floats::to_bits(s.impulse_train_gain),
    ]
}

// The words in the order of the fields.
struct InOrder;

impl Words<9> for InOrder {
    type State = State;

    ghost state_of = { state_of };

    ghost words_of = { words_of };

    ghost is_no_state = { λ w. no_bool (get_or w 4 0) };

    fn read(w: [u32; 9]) -> Option<State>
        ensures { result ≡ cond (no_bool (get_or w 4 0)) None (Some (state_of w)) }
    {
        if words::no_bool(w[4]) {
            None
        } else {
            Some(state_of(w))
        }
    }

    fn write(s: State) -> [u32; 9]
        ensures { result ≡ words_of s }
    {
        words_of(s)
    }
}

// At a sample rate in its range the words are those of the initial state, whatever they were; at any other they stay.
pub fn init(words: &mut [u32; 9], sample_rate: f32) -> u32
    ensures { record { words = words.new; number = result } ≡ init_face words.old sample_rate }
{
    let mut state = state_of(*words);
    let answer = classic::init(&mut state, sample_rate);
    if answer.is_ok() {
        *words = words_of(state);
    }
    block::number(answer)
}

// The parameters of a call of the shape with this number. Where there is none the frequency is 0, which is refused in
// the same place: what is asked before it, the length and the state, comes first here too.
fn parameters_of(frequency: f32, pw: f32, shape: u32) -> Parameters
    ensures { result ≡ parameters_of (numbered shape) frequency pw }
{
    match classic::shape_of(shape) {
        Some(shape) => Parameters {
            frequency,
            pw,
            shape,
        },
        None => Parameters {
            frequency: 0.0,
            pw,
            shape: OscillatorShape::Saw,
        },
    }
}

// Words whose one for `high` stands for no bool are no state: refused as a bad one, and not read.
pub fn render(
    words: &mut [u32; 9],
    frequency: f32,
    pw: f32,
    shape: u32,
    out: &mut [f32],
    res: &mut [u32; 7],
) -> u32
    ensures { record { answer = result; words = words.new; result = res.new; samples = out.new } ≡ render_face words.old frequency pw shape out.old }
{
    words::render::<InOrder, _, _>(words, parameters_of(frequency, pw, shape), out, res)
}
