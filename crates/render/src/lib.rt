// A job list becomes one line of text for each record, in a lent buffer.
#![tactic(auto)]

ghost use Rattle.std.specs.Prelude.{◌≡◌, ◌/◌, [], length, IsTrue};
ghost use Rattle.render.specs.Lists.{records_from, lines_of, is_job_list, text_of, answer_if, written, render_of, count_of, handed_back};
ghost use Rattle.bank.specs.Bank.{record_played};
ghost use Rattle.render.specs.Private.{said_by, said_of};

use bank::Bank;
use block::{Counts, Refusal};
use text::Text;

mod form;
mod text;

pub use form::{is_job_list, looks_like_text};

// No text is longer: 1,024 lines of eight numbers, each of ten digits and one byte more.
pub const ROOM: usize = 90112;

// How many bytes were written: the lines of all records, or the one line of a malformed list. Or the text would not have fitted, and nothing was.
// Three outcomes side by side: in a Result the malformed list's text would have to be an error, or a flag beside the count.
#[derive(Clone, Copy)]
pub enum Written {
    Text(usize),
    BadInput(usize),
    NoRoom,
}

// How many bytes of the buffer are the text, whichever it is; 0 where there was no room.
pub fn count(written: Written) -> usize
    ensures { result ≡ count_of written }
{
    match written {
        Written::Text(n) | Written::BadInput(n) => n,
        Written::NoRoom => 0,
    }
}

// The lines of every record, or the one line `8` for a list that is too long or no multiple of 64. The text is composed apart, so that nothing is
// written where not all of it fits.
pub fn render(list: &[u8], out: &mut [u8]) -> Written
    ensures { handed_back result out.new ≡ render_of list.now out.old }
{
    let mut text = Text::new();
    compose(list, &mut text);
    hand_over(is_job_list(list), text.bytes.as_slice(), out)
}

// The text of a good list or of a malformed one, where it fits.
fn hand_over(good: bool, text: &[u8], out: &mut [u8]) -> Written
    ensures { handed_back result out.new ≡ written (answer_if good) text.now out.old }
{
    let n = text.len();
    if n > out.len() {
        return Written::NoRoom;
    }
    out[..n].copy_from_slice(text);
    if good {
        Written::Text(n)
    } else {
        Written::BadInput(n)
    }
}

// The text of a good list or of a malformed one, in a room that is lent: a text is large, and is made once.
fn compose(list: &[u8], text: &mut Text)
    requires { text.old.bytes.items ≡ [] }
    ensures { text.new.bytes.items ≡ text_of list.now }
{
    if is_job_list(list) {
        records(list, text);
    } else {
        text.number(Refusal::BadInput.number(), b'\n');
    }
}

// The lines of every record. Each kind's state goes from record to record. By number, which is said in the line.
fn records(list: &[u8], text: &mut Text)
    requires empty { text.old.bytes.items ≡ [] }
    requires good { IsTrue (is_job_list list.now) }
    ensures { text.new.bytes.items ≡ lines_of (records_from list.now 0 (length list.now / 64)) }
{
    let mut bank = bank::start();
    for k in 0..list.len() / 64 {
        let answer = play(&mut bank, jobs::record(list, k));
        text.line(k as u32, answer);
    }
}

// A line says nothing of the samples: they go to a buffer that no one reads, of a length that is always enough.
fn play(bank: &mut Bank, part: &[u8]) -> Result<Counts, Refusal>
    ensures { said_by result bank.new ≡ said_of (record_played bank.old part.now) }
{
    let mut unread = [0.0f32; 4096];
    bank::play(bank, part, &mut unread)
}
