// The fields of a call record. Its bytes are a recorded input, whose layout does not change: that is why the fields are read by their places.
ghost use Rattle.std.specs.Prelude.{◌≤◌};

// A float by its bits, a NaN's too.
pub(crate) fn float_at(record: &[u8; 128], at: usize) -> f32 {
    floats::from_bits(testing::word_at(record, at))
}

// Two bytes: the upper half of the record's first word.
pub(crate) fn block_length(record: &[u8; 128]) -> usize {
    usize::from(u16::from_le_bytes([record[2], record[3]]))
}

// Flags: 1 sync, 2 phase output. The other bits mean nothing.
pub(crate) fn sync(record: &[u8; 128]) -> bool {
    record[1] & 1 != 0
}

// The second bit of the flags.
pub(crate) fn phase_output(record: &[u8; 128]) -> bool {
    record[1] & 2 != 0
}

// The classic's shape stands in place of flags.
pub(crate) fn shape(record: &[u8; 128]) -> u32 {
    u32::from(record[1])
}

// The seven registration entries, and an eighth that is 0.
pub(crate) fn registration(record: &[u8; 128]) -> [f32; 8] {
    let mut entries = [0.0; 8];
    for (entry, bits) in entries.iter_mut().zip(testing::words_at::<7>(record, 28)) {
        *entry = floats::from_bits(bits);
    }
    entries
}

// How many of them are handed over: 0 to 8. The count stands beside the array, since a function cannot lend a slice of an array that it makes.
pub(crate) fn entries(record: &[u8; 128]) -> usize
    ensures { result ≤ 8 }
{
    testing::word_at(record, 56).min(8) as usize
}

// The state's words, as many as the kind has.
pub(crate) fn state<const N: usize>(record: &[u8; 128]) -> [u32; N] {
    testing::words_at(record, 64)
}
