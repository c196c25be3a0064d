// The checksum of what a call left: of samples by their bits, or of bytes.
ghost use Rattle.std.specs.Prelude.{◌≡◌};
ghost use Rattle.testing.specs.Sums.{next_sum, sum_of, checksum_of};

// Over the bits of every sample in turn, so that two in each other's place show. A NaN counts as 7fc00000.
pub fn checksum(samples: &[f32]) -> u32
    ensures { result ≡ checksum_of samples.now }
{
    samples
        .iter()
        .map(|sample| floats::to_bits(*sample))
        .fold(0, next_sum)
}

// Over every byte in turn.
pub fn sum(bytes: &[u8]) -> u32
    ensures { result ≡ sum_of bytes.now }
{
    bytes.iter().map(|byte| u32::from(*byte)).fold(0, next_sum)
}

// One word more.
fn next_sum(sum: u32, word: u32) -> u32
    ensures { result ≡ next_sum sum word }
{
    ((u64::from(sum) * 1_000_003 + u64::from(word)) % 4_294_967_291) as u32
}
