// A note on standard error beside the `8` of bytes that are no job list; and on bytes that look like the text form, where the renderer was handed the
// text and not the list that is made of it.
// One line, or none. The text form may by chance be as long as a list of records, and each of these is then refused.
pub(crate) fn say(rt: &impl Eprint, list: &[u8]) {
    let good = render::is_job_list(list);
    let textual = render::looks_like_text(list);
    if textual | !good {
        put_size(rt, list.len());
        put_fault(rt, good);
        put_form(rt, textual);
    }
}

// How many bytes there are. No more than this are read, so that of a longer input only that is known.
fn put_size(rt: &impl Eprint, bytes: usize) {
    let more = if bytes > 65536 { " or more" } else { "" };
    let _ = eprint!(rt; "renderer: note: {bytes} bytes{more}");
}

// What is wrong with them, with the limit.
fn put_fault(rt: &impl Eprint, good: bool) {
    if good {
        let _ = eprint!(rt; " were taken for records of 64 bytes");
    } else {
        let _ = eprint!(rt;
            " are no job list, which has records of 64 bytes, at most 65,536 bytes in all"
        );
    }
}

// And where the list that was meant may come from.
fn put_form(rt: &impl Eprint, textual: bool) {
    if textual {
        let _ = eprintln!(rt; "; this looks like the text form: examples/jobs pack");
    } else {
        let _ = eprintln!(rt);
    }
}
