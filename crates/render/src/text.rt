// A text of numbers, line after line, in the room of the longest that there is.
ghost use Rattle.std.specs.Prelude.{◌≡◌, ◌+◌, ◌≤◌, [], ◌++◌, length};
ghost use Rattle.bank.specs.Bank.{told_of};
ghost use Rattle.render.specs.Line.{decimal_of, number_then, record_line};

use crate::ROOM;
use arrayvec::ArrayVec;
use block::{Counts, Refusal};

#[derive(Drop)]
pub(crate) struct Text {
    pub(crate) bytes: ArrayVec<u8, ROOM>,
}

impl Text {
    pub(crate) fn new() -> Text
        ensures { result.bytes.items ≡ [] }
    {
        Text {
            bytes: ArrayVec::new(),
        }
    }

    // A number in decimal: ten digits are the most that 32 bits need. By `io::decimal`, since `write!` says what it wrote only where it did not fail, and
    // not that it does not.
    fn decimal(&mut self, n: u32)
        requires { length self.old.bytes.items + 10 ≤ 90112 }
        ensures { self.new.bytes.items ≡ self.old.bytes.items ++ decimal_of n }
    {
        let mut digits = [0u8; 20];
        let k = io::decimal(u64::from(n), &mut digits);
        let _ = self.bytes.try_extend_from_slice(&digits[..k]);
    }

    // And the byte after it.
    pub(crate) fn number(&mut self, n: u32, after: u8)
        requires { length self.old.bytes.items + 11 ≤ 90112 }
        ensures text { self.new.bytes.items ≡ self.old.bytes.items ++ number_then n after }
        ensures short { length self.new.bytes.items ≤ length self.old.bytes.items + 11 }
    {
        self.decimal(n);
        self.bytes.push(after);
    }

    // What is said of record k: its index, the answer and Drift's index, and then the counts.
    pub(crate) fn line(&mut self, k: u32, answer: Result<Counts, Refusal>)
        requires { length self.old.bytes.items + 88 ≤ 90112 }
        ensures text { self.new.bytes.items ≡ self.old.bytes.items ++ record_line k (told_of answer) }
        ensures short { length self.new.bytes.items ≤ length self.old.bytes.items + 88 }
    {
        let counts = answer.unwrap_or(block::none());
        self.number(k, b' ');
        self.number(block::number(answer), b' ');
        self.number(block::index(answer), b' ');
        self.number(counts.cycles, b' ');
        self.number(counts.rises, b' ');
        self.number(counts.falls, b' ');
        self.number(counts.cuts, b' ');
        self.number(block::late(counts), b'\n');
    }
}
