// An oscillator's state as words of 32 bits, in the order of its fields, and a call over them.
ghost use Rattle.std.specs.Prelude.{◌≡◌, Bool, cond, Some, None, List, ℕ, length};
ghost use Rattle.block.specs.Voices.{call_by};
ghost use Rattle.words.specs.Face.{no_state as no_state_of, face_of};

use crate::{no_state, result_of, stores};
use block::Voice;

// The words of one oscillator.
pub trait Words<const N: usize> {
    type State: Copy;

    // The state of the words, field by field, and the words of a state.
    ghost state_of: { List ℕ → Self.State };

    ghost words_of: { Self.State → List ℕ };

    // Whether the words are no state, since the one for a bool stands for none.
    ghost is_no_state: { List ℕ → Bool };

    fn read(words: [u32; N]) -> Option<Self::State>
        ensures { result ≡ cond (is_no_state words.entry) None (Some (state_of words.entry)) };

    // A NaN becomes the word 7fc00000.
    fn write(state: Self::State) -> [u32; N]
        ensures { result ≡ words_of state };
}

// A call on the state of the words. Words that are no state are refused as a bad one, and not read; those that are not stored stay bit by bit, a NaN in them too.
pub fn render<W: Words<N>, V: Voice<State = W::State>, const N: usize>(
    words: &mut [u32; N],
    voice: V,
    out: &mut [f32],
    res: &mut [u32; 7],
) -> u32
    ensures { record { answer = result; words = words.new; result = res.new; samples = out.new } ≡ (let s = W.state_of words.old in cond (W.is_no_state words.old) (no_state_of words.old out.old) (face_of W.words_of words.old (call_by (V.checks voice s) (V.rooms voice) (V.moving voice s (length out.old)) (V.make voice) s out.old))) }
{
    let Some(mut state) = W::read(*words) else {
        *res = no_state(out.len());
        return res[0];
    };
    let answer = block::render(voice, &mut state, out);
    *res = result_of(answer);
    if stores(answer, out.len()) {
        *words = W::write(state);
    }
    res[0]
}
