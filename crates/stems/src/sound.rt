// The records of a list, played one after the other into one buffer.
ghost use Rattle.std.specs.Prelude.{◌≡◌, ◌≤◌, ◌<◌, length};
ghost use Rattle.block.specs.Answers.{number_of};
ghost use Rattle.bank.specs.Bank.{init_bank};
ghost use Rattle.render.specs.Lists.{records_from};
ghost use Rattle.stems.specs.Sound.{sound_of, left_of};
ghost use Rattle.stems.specs.Private.{Laid};

use block::{Counts, Refusal};

// Lays the samples of the first n records end to end, and gives how many they are. Where they are more than a stem has it stops: those of the records
// that follow would make them no fewer. So there is always room for one record more. By number and not by `chunks`: what this promises it promises of lists
// whose last record is cut off too. The samples are a buffer and a count, since memory is fixed and a record plays into what is lent.
pub(crate) fn lay(list: &[u8], n: usize, samples: &mut [f32]) -> usize
    requires { 1052672 ≤ length samples.old }
    ensures { Laid (sound_of init_bank (records_from list.now 0 n)) result samples.new }
{
    let mut bank = bank::start();
    let mut at = 0;
    for k in 0..n {
        if at > wave::MOST_SAMPLES {
            break;
        }
        let part = jobs::record(list, k);
        let answer = bank::play(&mut bank, part, &mut samples[at..]);
        at += left(answer, part);
    }
    at
}

// How many samples a record left: as many as it says, where it was answered Done.
fn left(answer: Result<Counts, Refusal>, part: &[u8]) -> usize
    ensures value { result ≡ left_of (number_of answer) part.now }
    ensures bound { result < 4294967296 }
{
    if answer.is_ok() {
        usize::from(jobs::read(part).block_length)
    } else {
        0
    }
}
