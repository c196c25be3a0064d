// What the test programs share: words read from a record, lines of text, the checksum of samples or bytes, and their turns.
// Of its callers only `repeat` asks anything, that a turn can always be taken, which the check finds by itself: so a program needs no proof of its own.
// Past the end of a record all is 0, and what a line has no room for is left out.
#![tactic(auto)]

mod record;
mod sums;
mod text;
mod turns;

pub use record::{word_at, words_at};
pub use sums::{checksum, sum};
pub use text::{Line, front};
pub use turns::repeat;
