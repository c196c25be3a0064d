// The states that each oscillator starts from: what `new` and `init` give by value, and the words that the exported `init` leaves.
use crate::fields::Fields;
use navuloqu::classic_calls::navuloqu_3_classic_init;
use navuloqu::nes_triangle_calls::navuloqu_3_nes_triangle_init;
use navuloqu::string_synth_calls::navuloqu_3_string_synth_init;
use navuloqu::super_square_calls::navuloqu_3_super_square_init;
use navuloqu::variable_saw_calls::navuloqu_3_variable_saw_init;
use navuloqu::variable_shape_calls::navuloqu_3_variable_shape_init;

// Before an exported `init` each word has all its bits set, so that one that it leaves alone is seen.
const SET: u32 = 0xffff_ffff;

// Three lines for each oscillator, in the order of the kinds; answers whether all were written, as each below.
pub(crate) fn say_all(rt: HostRuntime) -> bool {
    say_unrated(rt) && say_classic(rt)
}

// The oscillators that start without a sample rate.
fn say_unrated(rt: HostRuntime) -> bool {
    say_kind(
        rt,
        b"variable shape",
        variable_shape::new(),
        variable_shape::init(),
        exported([SET; 10], navuloqu_3_variable_shape_init),
    ) && say_kind(
        rt,
        b"variable saw",
        variable_saw::new(),
        variable_saw::init(),
        exported([SET; 7], navuloqu_3_variable_saw_init),
    ) && say_kind(
        rt,
        b"super square",
        super_square::new(),
        super_square::init(),
        exported([SET; 6], navuloqu_3_super_square_init),
    ) && say_kind(
        rt,
        b"NES triangle",
        nes_triangle::new(),
        nes_triangle::init(),
        exported([SET; 5], navuloqu_3_nes_triangle_init),
    ) && say_kind(
        rt,
        b"string synth",
        string_synth::new(),
        string_synth::init(),
        exported([SET; 8], navuloqu_3_string_synth_init),
    )
}

// The classic, at the renderer's sample rate. Where the exported `init` is refused, the words stay.
fn say_classic(rt: HostRuntime) -> bool {
    let mut init = classic::new();
    let _ = classic::init(&mut init, 48000.0);
    let exported = exported([SET; 9], |words| {
        navuloqu_3_classic_init(words, 48000.0);
    });
    say_kind(rt, b"classic", classic::new(), init, exported)
}

// What an exported `init` leaves of these words.
fn exported<W, F: FnOnce(&mut W)>(mut words: W, init: F) -> W
    requires { F.IsAlwaysCallable init }
{
    init(&mut words);
    words
}

// What `new` gives, what `init` gives, and the words that the exported `init` leaves.
fn say_kind<const N: usize, S: Fields<N> + Copy>(
    rt: HostRuntime,
    name: &[u8],
    new: S,
    init: S,
    exported: [u32; N],
) -> bool {
    say_state(rt, name, b", new: ", &new.fields())
        && say_state(rt, name, b", init: ", &init.fields())
        && say_state(rt, name, b", exported init: ", &exported)
}

// A line with an oscillator's name, how it was started and the words of its state.
fn say_state(rt: HostRuntime, name: &[u8], how: &[u8], words: &[u32]) -> bool {
    let mut line = testing::Line::<128>::new();
    line.put(name);
    line.put(how);
    line.put_words(words, b'\n');
    streams::write(rt, b"starts", line.as_bytes())
}
