// A program's turns over an input whose end is not known.
ghost use Rattle.std.specs.Prelude.{◌-◌, ◌^◌};
ghost use Rattle.testing.specs.Turns.{Turns};

// Takes one turn after the other, up to the first that answers that no more is to come. A proved loop has to end, and nothing says that the input
// does: so the turns are counted, up to a number that no run reaches.
pub fn repeat<F: FnMut() -> bool>(mut turn: F)
    requires { F.IsAlwaysCallable turn }
    ensures { Turns F.step (2 ^ 64 - 1) turn }
{
    for _ in 0..u64::MAX {
        if !turn() {
            break;
        }
    }
}
