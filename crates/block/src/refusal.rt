// What refuses a call: 01, "Answer numbers", but for 0, which a call that is done has; and 9, where what is lent is shorter than what an answer needs.
ghost use Rattle.std.specs.Prelude.{◌≡◌};
ghost use Rattle.block.specs.Answers.{refusal_number, refusal_index, number_of, index_of};

#[derive(Clone, Copy, Debug, PartialEq, Eq)]
pub enum Refusal {
    LongBlock,
    BadRegistration,
    BadState,
    BadParam,
    TooHigh,
    Drift(u32),
    BadRecord,
    BadInput,
    NoRoom,
}

impl Refusal {
    // Its number among the answers.
    pub fn number(self) -> u32
        ensures { result ≡ refusal_number self }
    {
        match self {
            Refusal::LongBlock => 1,
            Refusal::BadRegistration => 2,
            Refusal::BadState => 3,
            Refusal::BadParam => 4,
            Refusal::TooHigh => 5,
            Refusal::Drift(_) => 6,
            Refusal::BadRecord => 7,
            Refusal::BadInput => 8,
            Refusal::NoRoom => 9,
        }
    }

    // The value beside it: only Drift has one, and every other refusal 0.
    pub fn index(self) -> u32
        ensures { result ≡ refusal_index self }
    {
        match self {
            Refusal::Drift(i) => i,
            _ => 0,
        }
    }
}

// The number that a caller sees: 0 where the call is done.
pub fn number<T: Copy>(answer: Result<T, Refusal>) -> u32
    ensures { result ≡ number_of answer }
{
    match answer {
        Ok(_) => 0,
        Err(refusal) => refusal.number(),
    }
}

// And the index beside it.
pub fn index<T: Copy>(answer: Result<T, Refusal>) -> u32
    ensures { result ≡ index_of answer }
{
    match answer {
        Ok(_) => 0,
        Err(refusal) => refusal.index(),
    }
}
