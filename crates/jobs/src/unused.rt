// Which bytes of a record its kind uses, and whether all others are zero.
ghost use Rattle.std.specs.Prelude.{◌≡◌};
ghost use Rattle.jobs.specs.Fields.{between, byte_used, byte_fine, unused_zero};
ghost use Rattle.jobs.specs.Kinds.{number_of};

use crate::kind::Kind;

// Whether every byte that the kind leaves unused is zero. It stops at the first that is not.
pub(crate) fn zero(kind: Kind, part: &[u8]) -> bool
    ensures { result ≡ unused_zero (number_of kind) part.now }
{
    part.iter()
        .enumerate()
        .all(|(i, byte)| fine(kind, i, *byte))
}

// One byte: used by the kind, whatever it holds, or zero.
fn fine(kind: Kind, i: usize, byte: u8) -> bool
    ensures { result ≡ byte_fine (number_of kind) i byte }
{
    used(kind, i) | (byte == 0)
}

// The rows of the table of fields, each with the kinds that use it.
fn used(kind: Kind, i: usize) -> bool
    ensures { result ≡ byte_used (number_of kind) i }
{
    let shape = kind == Kind::VariableShape;
    let saw = kind == Kind::VariableSaw;
    let square = kind == Kind::SuperSquare;
    let nes = kind == Kind::NesTriangle;
    let string = kind == Kind::StringSynth;
    let classic = kind == Kind::Classic;
    among(0, 0, i)
        | (among(1, 1, i) & (shape | classic))
        | among(2, 3, i)
        | (among(4, 7, i) & nes)
        | among(8, 11, i)
        | (among(12, 15, i) & (shape | string))
        | (among(16, 19, i) & (shape | saw | square | classic))
        | (among(20, 23, i) & (shape | saw))
        | (among(24, 27, i) & shape)
        | (among(28, 55, i) & string)
}

// Byte i is one of those from first to last.
fn among(first: usize, last: usize, i: usize) -> bool
    ensures { result ≡ between first last i }
{
    (first..=last).contains(&i)
}
