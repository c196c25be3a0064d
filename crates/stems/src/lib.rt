// The stem of a job list: the samples of all records answered Done, laid end to end, as a WAV in a lent buffer.
#![tactic(auto)]

ghost use Rattle.std.specs.Prelude.{◌≡◌};
ghost use Rattle.stems.specs.declared.Refusal.TheVariants.{Wave};
ghost use Rattle.stems.specs.Compose.{sound_in, written, compose_of, number_of, count_of, handed_back};

mod sound;

// As many samples as a stem has at most, and those of one record more.
const ROOM: usize = 1_052_672;

// Why there is no stem: the input is malformed, or `wave` refuses its rate, its samples or the room. Nothing was written then.
#[derive(Clone, Copy, Debug, PartialEq, Eq)]
pub enum Refusal {
    BadInput,
    Wave(wave::Refusal),
}

impl From<wave::Refusal> for Refusal {
    ghost from_gives = { λ refusal result. result ≡ Wave refusal };

    fn from(refusal: wave::Refusal) -> Refusal {
        Refusal::Wave(refusal)
    }
}

// The answer's number.
pub fn number(composed: Result<usize, Refusal>) -> u32
    ensures { result ≡ number_of composed }
{
    match composed {
        Ok(_) => wave::number(Ok(())),
        Err(Refusal::BadInput) => block::Refusal::BadInput.number(),
        Err(Refusal::Wave(refusal)) => wave::number(Err(refusal)),
    }
}

// How many bytes of the buffer are the stem; 0 where nothing was written.
pub fn count(composed: Result<usize, Refusal>) -> usize
    ensures { result ≡ count_of composed }
{
    composed.unwrap_or(0)
}

// The input is the stem's rate, four bytes, the lowest first, and then a job list. The stem goes to the front of `out`, of so many bytes, and what lies
// past it stays.
pub fn compose(input: &[u8], out: &mut [u8]) -> Result<usize, Refusal>
    ensures { handed_back result out.new ≡ compose_of input.now out.old }
{
    match input.split_first_chunk::<4>() {
        Some((rate, list)) if render::is_job_list(list) => {
            of_list(u32::from_le_bytes(*rate), list, out)
        }
        _ => Err(Refusal::BadInput),
    }
}

// The stem of a list's sound, for which room is made here.
fn of_list(rate: u32, list: &[u8], out: &mut [u8]) -> Result<usize, Refusal>
    ensures { handed_back result out.new ≡ written rate (sound_in list.now) out.old }
{
    let mut samples = [0.0f32; ROOM];
    in_room(rate, list, &mut samples, out)
}

// The same in a room that is lent, as an array: who makes one so long cannot lend it as a slice.
fn in_room(
    rate: u32,
    list: &[u8],
    samples: &mut [f32; ROOM],
    out: &mut [u8],
) -> Result<usize, Refusal>
    ensures { handed_back result out.new ≡ written rate (sound_in list.now) out.old }
{
    let n = sound::lay(list, list.len() / 64, &mut samples[..]);
    write(rate, &samples[..n], out)
}

// The stem of these samples, and how many bytes it has.
fn write(rate: u32, samples: &[f32], out: &mut [u8]) -> Result<usize, Refusal>
    ensures { handed_back result out.new ≡ written rate samples.now out.old }
{
    wave::write(rate, samples, out)?;
    Ok(wave::HEADER + 2 * samples.len())
}
