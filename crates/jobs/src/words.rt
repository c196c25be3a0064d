// Bytes, words and floats of a record, little-endian. Past the end all is 0, so that no caller has to show a length. The test
// programs read their records by functions of their own, since these are what they test.
ghost use Rattle.std.specs.Prelude.{◌≡◌, ◌≤◌, get_or};
ghost use Rattle.jobs.specs.Words.{short_at, word_at, float_at, floats_at};

// Byte i; 0 past the end.
pub(crate) fn byte_at(part: &[u8], i: usize) -> u8
    ensures { result ≡ get_or part.now i 0 }
{
    part.get(i).copied().unwrap_or(0)
}

// Two bytes, the lower first. No record has a field past byte 64, so that the places of its bytes are numbers that fit.
pub(crate) fn short_at(part: &[u8], i: usize) -> u16
    requires { i ≤ 64 }
    ensures { result ≡ short_at part.now i }
{
    u16::from_le_bytes([byte_at(part, i), byte_at(part, i + 1)])
}

// Four bytes, the lowest first.
pub(crate) fn word_at(part: &[u8], i: usize) -> u32
    requires { i ≤ 60 }
    ensures { result ≡ word_at part.now i }
{
    u32::from_le_bytes([
        byte_at(part, i),
        byte_at(part, i + 1),
        byte_at(part, i + 2),
        byte_at(part, i + 3),
    ])
}

// The float of any four bytes, a NaN's too.
pub(crate) fn float_at(part: &[u8], i: usize) -> f32
    requires { i ≤ 60 }
    ensures { result ≡ float_at part.now i }
{
    floats::from_bits(word_at(part, i))
}

// Bytes 28 to 55: the string's seven. Every good record of another kind has zeros there. One by one: with `from_fn` the proof did not close.
pub(crate) fn registration(part: &[u8]) -> [f32; 7]
    ensures { result ≡ floats_at 7 part.now 28 }
{
    [
        float_at(part, 28),
        float_at(part, 32),
        float_at(part, 36),
        float_at(part, 40),
        float_at(part, 44),
        float_at(part, 48),
        float_at(part, 52),
    ]
}
