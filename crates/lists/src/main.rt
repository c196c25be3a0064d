// Test program: reads job lists from standard input, each after its length in four bytes, little-endian, and prints for each what the renderer prints,
// then a line `-`. It ends at a list that is cut short or has more than 70,000 bytes, and prints nothing for that one.
#![tactic(auto)]

// The text of each list.
fn main(rt: HostRuntime) {
    testing::repeat(|| print_next(rt));
}

// Prints the text of the next list, and answers whether there may be more. `heard` reads its lists likewise: what both share is no longer than a call
// with a closure for the rest would be.
fn print_next(rt: HostRuntime) -> bool {
    let mut length = [0u8; 4];
    streams::fill(rt, b"lists", &mut length) && print_list(rt, u32::from_le_bytes(length) as usize)
}

// A list of n bytes. The room for it stands first in a function: behind a call it would be cleared twice.
fn print_list(rt: HostRuntime, n: usize) -> bool {
    let mut space = [0u8; 70000];
    match space.get_mut(..n) {
        Some(list) => streams::fill(rt, b"lists", list) && print_text(rt, list),
        None => false,
    }
}

// The text that the renderer prints, and the line that ends it; answers whether all was written.
fn print_text(rt: HostRuntime, list: &[u8]) -> bool {
    let mut space = [0u8; render::ROOM];
    let text: &mut [u8] = &mut space;
    let written = render::render(list, text);
    streams::write(rt, b"lists", testing::front(text, render::count(written)))
        && streams::write(rt, b"lists", b"-\n")
}
