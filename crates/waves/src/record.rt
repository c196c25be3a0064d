// The samples that a record stands for.

// Eleven bit patterns over and over, which the record has from byte 20 on, and another one at a place.
pub(crate) fn fill(samples: &mut [f32], record: &[u8; 64]) {
    let levels = testing::words_at::<11>(record, 20);
    for (sample, level) in samples.iter_mut().zip(levels.iter().cycle()) {
        *sample = floats::from_bits(*level);
    }
    let [place, other] = testing::words_at::<2>(record, 12);
    if let Some(sample) = samples.get_mut(place as usize) {
        *sample = floats::from_bits(other);
    }
}
