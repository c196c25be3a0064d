// Reads a job list and writes a line for each record. One byte more than the most is read, so that a list that is too long is seen.
// What cannot be read or written is one line on standard error, and so is a note on bytes that are no job list or look like the text form of one.
#![tactic(auto)]

ghost use Rattle.std.specs.Prelude.{◌≡◌, take};
ghost use Rattle.io.specs.Counts.{IsPrefixLen};
ghost use Rattle.render.specs.Lists.{text_of};

mod note;

// An input that could not be read to its end is no list: nothing is written for it.
fn main(rt: HostRuntime) {
    let mut list = [0u8; 65537];
    if let Some(n) = streams::read(rt, b"renderer", &mut list) {
        answer(rt, &list[..n]);
    }
}

// A note comes only where all was written, so that what fails stands alone on its line.
fn answer(rt: HostRuntime, list: &[u8]) {
    let mut text = [0u8; render::ROOM];
    let end = compose(list, &mut text);
    if streams::write(rt, b"renderer", &text[..end]) {
        note::say(&rt, list);
    }
}

// What is written for the bytes that were read: their text, whole, and nothing else. That is all that a contract can say of the program; which bytes
// those are, no contract says.
fn compose(list: &[u8], text: &mut [u8; render::ROOM]) -> usize
    ensures prefix_len { IsPrefixLen result text.new }
    ensures text_after { take result text.new ≡ text_of list.now }
{
    let written = render::render(list, text);
    render::count(written)
}
