// One state of each kind, and what one record makes of them: its answer, and its samples in a lent buffer.
#![tactic(auto)]

ghost use Rattle.std.specs.Prelude.{◌≡◌};
ghost use Rattle.classic.specs.State.{initial_state};
ghost use Rattle.bank.specs.Bank.{sample_rate, init_bank, settings_played, silence};
ghost use Rattle.bank.specs.Lent.{handed, play_of, handed_back};
ghost use Rattle.bank.specs.Private.{lent_of, made_of};

use block::{Counts, Refusal};
use jobs::Settings;
use string_synth::Parameters;

// The classic oscillator is started at this sample rate.
const SAMPLE_RATE: f32 = 48000.0;

// The states that records play on, one of each kind.
#[derive(Clone, Copy)]
pub struct Bank {
    pub shape: variable_shape::State,
    pub saw: variable_saw::State,
    pub super_square: super_square::State,
    pub nes: nes_triangle::State,
    pub string: string_synth::State,
    pub classic: classic::State,
}

// Every kind starts from the source's `init`, and not from its `Default`.
pub fn start() -> Bank
    ensures { result ≡ init_bank }
{
    Bank {
        shape: variable_shape::init(),
        saw: variable_saw::init(),
        super_square: super_square::init(),
        nes: nes_triangle::init(),
        string: string_synth::init(),
        classic: classic_start(),
    }
}

// The state given to `init` is not looked at, and this rate is within its range.
fn classic_start() -> classic::State
    ensures { result ≡ initial_state sample_rate }
{
    let mut state = classic::new();
    let _ = classic::init(&mut state, SAMPLE_RATE);
    state
}

// Plays a record. Its samples go to the front of `out`; a refused one, a malformed one among them, changes nothing. 4,096 samples are always room enough.
pub fn play(bank: &mut Bank, part: &[u8], out: &mut [f32]) -> Result<Counts, Refusal>
    ensures { handed_back result bank.new out.new ≡ play_of bank.old part.now out.old }
{
    let job = jobs::read(part);
    let Some(settings) = job.asked else {
        return Err(Refusal::BadRecord);
    };
    on_silence(bank, settings, job.registration, job.block_length, out)
}

// The call on zeros. A block that is too long is refused whatever its length, so that 4,097 samples stand for it. Settings and registration
// stand side by side, as in a Job: a type for both would be a second list of the kinds.
fn on_silence(
    bank: &mut Bank,
    settings: Settings,
    registration: [f32; 7],
    n: u16,
    out: &mut [f32],
) -> Result<Counts, Refusal>
    ensures { handed_back result bank.new out.new ≡ handed bank.old (settings_played bank.old settings registration (silence n)) out.old }
{
    let mut buffer = [0.0f32; 4097];
    let e = lent(n);
    on_block(bank, settings, registration, &mut buffer[..e], out)
}

// As many samples as the record says, but for a block that is too long: one more than a call answers.
fn lent(n: u16) -> usize
    ensures { result ≡ lent_of n }
{
    usize::from(n).min(4097)
}

// A call on these samples, and what it leaves in them handed over where it fits. Where it does not, the bank is the one before the call, as if there had been none.
fn on_block(
    bank: &mut Bank,
    settings: Settings,
    registration: [f32; 7],
    samples: &mut [f32],
    out: &mut [f32],
) -> Result<Counts, Refusal>
    ensures { handed_back result bank.new out.new ≡ handed bank.old (settings_played bank.old settings registration samples.old) out.old }
{
    let before = *bank;
    let counts = by_kind(bank, settings, registration, samples)?;
    let n = samples.len();
    if n > out.len() {
        *bank = before;
        return Err(Refusal::NoRoom);
    }
    out[..n].copy_from_slice(samples);
    Ok(counts)
}

// The call of the settings' kind, on its state. The registration stands beside them, and only the string takes it.
fn by_kind(
    bank: &mut Bank,
    settings: Settings,
    registration: [f32; 7],
    out: &mut [f32],
) -> Result<Counts, Refusal>
    ensures { made_of result bank.new out.new ≡ settings_played bank.old settings registration out.old }
{
    match settings {
        Settings::VariableShape(asked) => variable_shape::render(&mut bank.shape, asked, out),
        Settings::VariableSaw(asked) => variable_saw::render(&mut bank.saw, asked, out),
        Settings::SuperSquare(asked) => super_square::render(&mut bank.super_square, asked, out),
        Settings::NesTriangle(asked) => nes_triangle::render(&mut bank.nes, asked, out),
        Settings::StringSynth { frequency, gain } => {
            let asked = Parameters {
                frequency,
                registration: &registration,
                gain,
            };
            string_synth::render(&mut bank.string, asked, out)
        }
        Settings::Classic(asked) => classic::render(&mut bank.classic, asked, out),
    }
}
