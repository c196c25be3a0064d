// What a call's parameters become before its block starts: the frequency of the saws and the gains that the registration gives them.
ghost use Rattle.std.specs.Prelude.{◌≡◌, ℕ, ◌<◌, length, slice_index_or};
ghost use Rattle.std.specs.Float.{nan};
ghost use Rattle.string_synth.specs.Targets.{lowered, placed_at, gain_between, targets_of};
ghost use Rattle.string_synth.specs.Private.{Entries32};

use crate::sample::Saws;

// A frequency some octaves down, and the registration places that this shifts by.
#[derive(Clone, Copy)]
pub struct Octave {
    pub frequency: f32,
    pub shift: usize,
}

// Lines 65 to 69: halved while it is above 0.5. At a shift of 8 the source gives up, so the loop ends there too: an infinity never comes below.
fn lower(frequency: f32) -> Octave
    ensures { result ≡ lowered frequency }
{
    let mut f = frequency;
    let mut shift = 0;
    // A `while`, as in the source: its turns are not counted beforehand, and a `for` would need a `break` for the same test.
    while (f > 0.5) & (shift < 8) {
        shift += 2;
        f = f * 0.5;
    }
    Octave {
        frequency: f,
        shift,
    }
}

// The entry at place `i` of the registration, shifted: lines 75 to 78. The places that the shift leaves empty are 0.0.
fn placed(registration: &[f32], shift: usize, i: usize) -> f32
    requires { i < length registration.now }
    ensures { result ≡ placed_at registration.now shift i }
{
    if i < shift {
        0.0
    } else {
        registration[i - shift]
    }
}

// All seven of them.
fn shifted(registration: &[f32], shift: usize) -> [f32; 7]
    requires { length registration.now ≡ 7 }
    ensures { (i : ℕ) → i < 7 → slice_index_or result i nan ≡ placed_at registration.now shift i }
{
    std::array::from_fn(|i| placed(registration, shift, i))
}

// The gain of a saw that has a square below it, lines 88 and 93: its own, less that square's, and twice its own square's. A square is twice the saw of
// its length less the saw an octave above.
fn gain_between(saw: f32, below: f32, square: f32, gain: f32) -> f32
    ensures { result ≡ gain_between saw below square gain }
{
    (saw - below + 2.0 * square) * gain
}

// Lines 60 to 100. A registration of another length is refused before. That its entries are binary32 values is told too: the caller has it in a struct,
// where nothing says so.
pub(crate) fn targets(frequency: f32, unshifted_registration: &[f32], gain: f32) -> Saws
    requires { length unshifted_registration.now ≡ 7 }
    ensures made { result ≡ targets_of frequency unshifted_registration.now gain }
    ensures entries { Entries32 unshifted_registration.now }
{
    let octave = lower(frequency * 8.0);
    let registration = shifted(unshifted_registration, octave.shift);
    Saws {
        frequency: octave.frequency,
        saw_8_gain: (registration[0] + 2.0 * registration[1]) * gain,
        saw_4_gain: gain_between(registration[2], registration[1], registration[3], gain),
        saw_2_gain: gain_between(registration[4], registration[3], registration[5], gain),
        saw_1_gain: (registration[6] - registration[5]) * gain,
    }
}
