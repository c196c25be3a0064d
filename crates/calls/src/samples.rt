// The buffer before a call.

// Every sample holds these bits; or, where they are 0, sample i holds (i mod 8 + 1) / 4.
pub(crate) fn fill(out: &mut [f32], bits: u32) {
    for (sample, level) in out.iter_mut().zip(levels_of(bits).iter().cycle()) {
        *sample = *level;
    }
}

// The samples that a buffer holds over and over.
fn levels_of(bits: u32) -> [f32; 8] {
    if bits == 0 {
        [0.25, 0.5, 0.75, 1.0, 1.25, 1.5, 1.75, 2.0]
    } else {
        [floats::from_bits(bits); 8]
    }
}
