// The line of a call.
pub(crate) type Line = testing::Line<176>;

// What a call gave and left: the result in decimal, then the state's words and the checksum in hexadecimal.
pub(crate) fn of(returned: u32, res: &[u32; 7], words: &[u32], out: &[f32]) -> Line {
    let mut line = Line::new();
    put_answer(&mut line, returned, res[0]);
    for number in &res[1..] {
        line.put_number(*number, b' ');
    }
    line.put_words(words, b' ');
    line.put_word(testing::checksum(out), b'\n');
    line
}

// The answer, which is returned and is the result's first word too: where the two differ there is no such number.
fn put_answer(line: &mut Line, returned: u32, told: u32) {
    if returned == told {
        line.put_number(returned, b' ');
    } else {
        line.put(b"? ");
    }
}

// The line of a record whose call is not made.
pub(crate) fn dash() -> Line {
    let mut line = Line::new();
    line.put(b"-\n");
    line
}
