// The kinds of a record: the numbers that name one.
ghost use Rattle.std.specs.Prelude.{◌≡◌};
ghost use Rattle.jobs.specs.Kinds.{kind_of};

// In the order of their numbers, from 1.
#[derive(Clone, Copy, PartialEq)]
pub(crate) enum Kind {
    VariableShape,
    VariableSaw,
    SuperSquare,
    NesTriangle,
    StringSynth,
    Classic,
}

// The kind with this number, if there is one. An Option and no TryFrom, since there is nothing to say of the others.
pub(crate) fn of(number: u8) -> Option<Kind>
    ensures { result ≡ kind_of number }
{
    match number {
        1 => Some(Kind::VariableShape),
        2 => Some(Kind::VariableSaw),
        3 => Some(Kind::SuperSquare),
        4 => Some(Kind::NesTriangle),
        5 => Some(Kind::StringSynth),
        6 => Some(Kind::Classic),
        0 | 7..=255 => None,
    }
}
