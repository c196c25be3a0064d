// A stem: samples become the bytes of a WAV file, mono, 16 bits, in a lent buffer.
#![tactic(auto)]

ghost use Rattle.std.specs.Prelude.{◌≡◌, ◌++◌, ◌+◌, ◌*◌, ◌≤◌, length, drop};
ghost use Rattle.wave.specs.Form.{samples_of, stem_of};
ghost use Rattle.wave.specs.Write.{is_fit, all_numbers, number_of, write_of, handed_back};

mod form;
mod pcm;

// The bytes before the samples.
pub const HEADER: usize = 44;

// How many samples a stem has at most.
pub const MOST_SAMPLES: usize = 1_048_576;

// The bytes of the longest stem.
pub const ROOM: usize = 2_097_196;

// Why there is no stem: a rate, a count or a sample is unfit, or the stem would not have fitted. Nothing was written then.
#[derive(Clone, Copy, Debug, PartialEq, Eq)]
pub enum Refusal {
    BadParam,
    NoRoom,
}

// The answer's number.
pub fn number(written: Result<(), Refusal>) -> u32
    ensures { result ≡ number_of written }
{
    match written {
        Ok(()) => 0,
        Err(Refusal::BadParam) => 4,
        Err(Refusal::NoRoom) => 9,
    }
}

// The stem goes to the front of `out`, and what lies past it stays.
pub fn write(rate: u32, samples: &[f32], out: &mut [u8]) -> Result<(), Refusal>
    ensures { handed_back result out.new ≡ write_of rate samples.now out.old }
{
    if !is_fit(rate, samples) {
        return Err(Refusal::BadParam);
    }
    if out.len() < HEADER + 2 * samples.len() {
        return Err(Refusal::NoRoom);
    }
    put(rate, samples, out);
    Ok(())
}

// Whether there is a stem of these samples at this rate.
fn is_fit(rate: u32, samples: &[f32]) -> bool
    ensures { result ≡ is_fit rate samples.now }
{
    (1..=384_000).contains(&rate) && samples.len() <= MOST_SAMPLES && all_numbers(samples)
}

// It stops at the first NaN.
fn all_numbers(samples: &[f32]) -> bool
    ensures { result ≡ all_numbers samples.now }
{
    samples.iter().all(|x| !x.is_nan())
}

// Header and samples.
fn put(rate: u32, samples: &[f32], out: &mut [u8])
    requires rate { rate ≤ 384000 }
    requires few { length samples.now ≤ 1048576 }
    requires room { 44 + 2 * length samples.now ≤ length out.old }
    ensures { out.new ≡ stem_of rate samples.now ++ drop (44 + 2 * length samples.now) out.old }
{
    let header = form::header(rate, 2 * samples.len() as u32);
    out[0..HEADER].copy_from_slice(&header);
    put_samples(samples, &mut out[HEADER..]);
}

// The numbers of the samples, each in two bytes, the lower first.
fn put_samples(samples: &[f32], out: &mut [u8])
    requires few { length samples.now ≤ 1048576 }
    requires room { 2 * length samples.now ≤ length out.old }
    ensures { out.new ≡ samples_of samples.now ++ drop (2 * length samples.now) out.old }
{
    // By index: of what is written through chunks_exact_mut a proof knows the length alone.
    for (i, x) in samples.iter().enumerate() {
        out[2 * i..2 * i + 2].copy_from_slice(&pcm::number(*x).to_le_bytes());
    }
}
