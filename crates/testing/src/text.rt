// Lines of text of a fixed room: what has no room is left out.
ghost use Rattle.std.specs.Prelude.{◌≡◌, [], take};
ghost use Rattle.testing.specs.Text.{byte_of, put_of, word_text, words_of, Numbered};

use arrayvec::ArrayVec;

// A line in the making, of at most N bytes.
#[derive(Drop)]
pub struct Line<const N: usize> {
    bytes: ArrayVec<u8, N>,
}

impl<const N: usize> Line<N> {
    // With nothing in it.
    pub fn new() -> Self
        ensures { result.bytes.items ≡ [] }
    {
        Line {
            bytes: ArrayVec::new(),
        }
    }

    // A byte more, where there is room.
    pub fn put_byte(&mut self, byte: u8)
        ensures { self.new.bytes.items ≡ byte_of N byte self.old.bytes.items }
    {
        let _ = self.bytes.try_push(byte);
    }

    // Likewise a text, as much of it as there is room for.
    pub fn put(&mut self, text: &[u8])
        ensures { self.new.bytes.items ≡ put_of N text.now self.old.bytes.items }
    {
        let fitting = text.len().min(self.bytes.remaining_capacity());
        let _ = self.bytes.try_extend_from_slice(&text[..fitting]);
    }

    // Eight hexadecimal digits, and the byte after them. By the crate `hex`, over the word's bytes: `io::hex` counts the digits of 64 bits first, and took up to
    // half of a program's time.
    pub fn put_word(&mut self, word: u32, after: u8)
        ensures { self.new.bytes.items ≡ put_of N (word_text word after) self.old.bytes.items }
    {
        let mut digits = [0u8; 8];
        let _ = hex::encode_to_slice(word.to_be_bytes(), &mut digits);
        self.put(&digits);
        self.put_byte(after);
    }

    // Words with a space between them, and the byte after the last.
    pub fn put_words(&mut self, words: &[u32], last: u8)
        ensures { self.new.bytes.items ≡ words_of N words.now last self.old.bytes.items }
    {
        if let Some((end, before)) = words.split_last() {
            for word in before {
                self.put_word(*word, b' ');
            }
            self.put_word(*end, last);
        }
    }

    // The shortest digits of a number, and the byte after them. By `io::decimal`: `write!` says what it wrote only where it did not fail, and not that it
    // does not.
    pub fn put_number(&mut self, number: u32, after: u8)
        ensures { Numbered N number after self.old.bytes.items self.new.bytes.items }
    {
        let mut decimal = [0u8; 20];
        let count = io::decimal(u64::from(number), &mut decimal);
        self.put(&decimal[..count]);
        self.put_byte(after);
    }

    // What stands in it.
    pub fn as_bytes(&self) -> &[u8]
        ensures { result.now ≡ self.now.bytes.items }
    {
        self.bytes.as_slice()
    }
}

// What stands before `end`: all, where that lies past the buffer's end.
pub fn front(out: &[u8], end: usize) -> &[u8]
    ensures { result.now ≡ take end out.now }
{
    &out[..end.min(out.len())]
}
