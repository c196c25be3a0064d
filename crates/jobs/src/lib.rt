// Job records, 64 bytes each, little-endian: the part of a list that a record is, and what it asks for.
#![tactic(auto)]

ghost use Rattle.std.specs.Prelude.{◌≡◌, Some};
ghost use Rattle.jobs.specs.Words.{record_of};
ghost use Rattle.jobs.specs.Kinds.{number_of};
ghost use Rattle.jobs.specs.Record.{step_count_in, shape_of, saw_of, super_square_of, nes_of, string_of, classic_of, by_kind_of, asked_of, job_of};

use kind::Kind;

mod kind;
mod unused;
mod words;

// A call's parameters, by kind. The string's registration is told beside them.
#[derive(Clone, Copy)]
pub enum Settings {
    VariableShape(variable_shape::Parameters),
    VariableSaw(variable_saw::Parameters),
    SuperSquare(super_square::Parameters),
    NesTriangle(nes_triangle::Parameters),
    StringSynth { frequency: f32, gain: f32 },
    Classic(classic::Parameters),
}

// What a record asks for: nothing where it is malformed. The registration stands beside the settings, since it is told of every record, a malformed one
// too. In every good record it is all zeros but for the string's.
#[derive(Clone, Copy)]
pub struct Job {
    pub asked: Option<Settings>,
    pub block_length: u16,
    pub registration: [f32; 7],
}

// Record k of the list: the caller's own bytes. Empty for a list that is no multiple of 64, or a k past its end.
pub fn record(list: &[u8], k: usize) -> &[u8]
    ensures { result.now ≡ record_of list.now k }
{
    let (records, rest) = list.as_chunks::<64>();
    match records.get(k) {
        Some(part) if rest.is_empty() => part,
        _ => &list[..0],
    }
}

// What the bytes of a record say. Block length and registration are read from a malformed one too, where no one asks for them.
pub fn read(part: &[u8]) -> Job
    ensures { result ≡ job_of part.now }
{
    Job {
        asked: asks(part),
        block_length: words::short_at(part, 2),
        registration: words::registration(part),
    }
}

// A part that is no whole record is malformed whatever it holds; so is one with an unused byte that is not zero.
fn asks(part: &[u8]) -> Option<Settings>
    ensures { result ≡ asked_of part.now }
{
    if part.len() != 64 {
        return None;
    }
    let kind = kind::of(part[0])?;
    if unused::zero(kind, part) {
        by_kind(kind, part)
    } else {
        None
    }
}

// Some kinds refuse what one of their fields holds.
fn by_kind(kind: Kind, part: &[u8]) -> Option<Settings>
    ensures { result ≡ by_kind_of (number_of kind) part.now }
{
    match kind {
        Kind::VariableShape => shape(part),
        Kind::VariableSaw => Some(saw(part)),
        Kind::SuperSquare => Some(super_square(part)),
        Kind::NesTriangle => nes(part),
        Kind::StringSynth => Some(string(part)),
        Kind::Classic => classic(part),
    }
}

// Of the flags 1 is sync, 2 phase output, and above 3 a bit is set that has no meaning.
fn shape(part: &[u8]) -> Option<Settings>
    ensures { result ≡ shape_of part.now }
{
    let flags = words::byte_at(part, 1);
    if flags > 3 {
        return None;
    }
    Some(Settings::VariableShape(variable_shape::Parameters {
        frequency: words::float_at(part, 8),
        master_frequency: words::float_at(part, 12),
        pw: words::float_at(part, 16),
        waveshape: words::float_at(part, 20),
        phase_modulation: words::float_at(part, 24),
        sync: flags % 2 == 1,
        phase_output: flags >= 2,
    }))
}

fn saw(part: &[u8]) -> Settings
    ensures { Some result ≡ saw_of part.now }
{
    Settings::VariableSaw(variable_saw::Parameters {
        frequency: words::float_at(part, 8),
        pw: words::float_at(part, 16),
        waveshape: words::float_at(part, 20),
    })
}

// The shape stands where others have their pulse width.
fn super_square(part: &[u8]) -> Settings
    ensures { Some result ≡ super_square_of part.now }
{
    Settings::SuperSquare(super_square::Parameters {
        frequency: words::float_at(part, 8),
        shape: words::float_at(part, 16),
    })
}

// A step count that is a power of two is told as its bits.
fn nes(part: &[u8]) -> Option<Settings>
    ensures { result ≡ nes_of part.now }
{
    let steps = words::word_at(part, 4);
    if !step_count_in(steps) {
        return None;
    }
    Some(Settings::NesTriangle(nes_triangle::Parameters {
        frequency: words::float_at(part, 8),
        num_bits: steps.trailing_zeros(),
    }))
}

// Exactly one bit set, 2 to 65,536: by the count of ones, as 01 has it.
fn step_count_in(steps: u32) -> bool
    ensures { result ≡ step_count_in steps }
{
    (steps.count_ones() == 1) & (2 <= steps) & (steps <= 65536)
}

// The gain stands where the shape has its master frequency. The registration is read beside it, by `read`.
fn string(part: &[u8]) -> Settings
    ensures { Some result ≡ string_of part.now }
{
    Settings::StringSynth {
        frequency: words::float_at(part, 8),
        gain: words::float_at(part, 12),
    }
}

// The flags are the number of its shape: above 7 there is none.
fn classic(part: &[u8]) -> Option<Settings>
    ensures { result ≡ classic_of part.now }
{
    let shape = classic::shape_of(u32::from(words::byte_at(part, 1)))?;
    Some(Settings::Classic(classic::Parameters {
        frequency: words::float_at(part, 8),
        pw: words::float_at(part, 16),
        shape,
    }))
}
