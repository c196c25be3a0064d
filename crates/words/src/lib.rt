// What the faces share: an oscillator's state as words, a call over them, the seven words of a result, and whole numbers as words.
#![tactic(auto)]

ghost use Rattle.std.specs.Prelude.{◌≡◌, ◌∷◌};
ghost use Rattle.block.specs.Answers.{number_of};
ghost use Rattle.block.specs.Counting.{no_counts, told};
ghost use Rattle.words.specs.Face.{result_words, no_bool, bad_state_of, stores_of, signed_of, unsigned_of};

use block::{Counts, Refusal};

mod state;

// A state as words.
pub use state::{Words, render};

// The seven words of a result: the answer, Drift's index or 0, and the counts in the order in which they are told.
pub fn result_of(answer: Result<Counts, Refusal>) -> [u32; 7]
    ensures { result ≡ result_words answer }
{
    let counts = answer.unwrap_or(block::none());
    [
        block::number(answer),
        block::index(answer),
        counts.cycles,
        counts.rises,
        counts.falls,
        counts.cuts,
        block::late(counts),
    ]
}

// Whether a word, which comes from outside, stands for no bool. Then the words are no state.
pub fn no_bool(word: u32) -> bool
    ensures { result ≡ no_bool word }
{
    word > 1
}

// The result for words that are no state. A block that is too long is refused as such, as it is with any state.
pub fn no_state(samples: usize) -> [u32; 7]
    ensures { result ≡ bad_state_of samples ∷ 0 ∷ told no_counts }
{
    if samples <= 4096 {
        result_of(Err(Refusal::BadState))
    } else {
        result_of(Err(Refusal::LongBlock))
    }
}

// Whether a call's state is stored: a refusal and an empty block leave the words bit by bit, a NaN in them too.
pub fn stores(answer: Result<Counts, Refusal>, samples: usize) -> bool
    ensures { result ≡ stores_of (number_of answer) samples }
{
    answer.is_ok() & (samples > 0)
}

// A word as a whole number in two's complement.
pub fn signed(word: u32) -> i32
    ensures { result ≡ signed_of word }
{
    word.cast_signed()
}

// And a whole number as a word.
pub fn unsigned(number: i32) -> u32
    ensures { result ≡ unsigned_of number }
{
    number.cast_unsigned()
}
