// The words of a record, little-endian.
ghost use Rattle.std.specs.Prelude.{◌≡◌, get_or};
ghost use Rattle.testing.specs.Words.{word_at, AreWordsAt};

// Four bytes, the lowest first; past the end all is 0.
pub fn word_at(bytes: &[u8], at: usize) -> u32
    ensures { result ≡ word_at bytes.now at }
{
    let rest = bytes.get(at..).unwrap_or_default();
    u32::from_le_bytes([
        byte_at(rest, 0),
        byte_at(rest, 1),
        byte_at(rest, 2),
        byte_at(rest, 3),
    ])
}

// So many words, one after the other.
pub fn words_at<const N: usize>(bytes: &[u8], at: usize) -> [u32; N]
    ensures { AreWordsAt bytes.now at N result }
{
    let mut words = [0u32; N];
    let mut rest = bytes.get(at..).unwrap_or_default();
    for word in words.iter_mut() {
        *word = word_at(rest, 0);
        rest = rest.get(4..).unwrap_or_default();
    }
    words
}

// 0 past the end, so that nothing is asked of the place.
fn byte_at(bytes: &[u8], at: usize) -> u8
    ensures { result ≡ get_or bytes.now at 0 }
{
    bytes.get(at).copied().unwrap_or(0)
}
