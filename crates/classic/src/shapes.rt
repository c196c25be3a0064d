// The eight shapes: by number, and which of them step the width.
ghost use Rattle.std.specs.Prelude.{◌≡◌};
ghost use Rattle.classic.specs.Shapes.{numbered, steps_width, width_of, kept_width};
ghost use Rattle.classic.specs.Private.{width_room};

use crate::OscillatorShape;
use rooms::Room;

// The shapes by number, from 0, in the order of the source's `OscillatorShape`. Above 7 there is none.
// A function and no TryFrom: it has this name in the documents.
pub fn shape_of(number: u32) -> Option<OscillatorShape>
    ensures { result ≡ numbered number }
{
    match number {
        0 => Some(OscillatorShape::ImpulseTrain),
        1 => Some(OscillatorShape::Saw),
        2 => Some(OscillatorShape::Triangle),
        3 => Some(OscillatorShape::Slope),
        4 => Some(OscillatorShape::Square),
        5 => Some(OscillatorShape::SquareBright),
        6 => Some(OscillatorShape::SquareDark),
        7 => Some(OscillatorShape::SquareTriangle),
        8..=4294967295 => None,
    }
}

// Two shapes stand at a width of 0.5: lines 104 to 107.
pub(crate) fn steps_width(shape: OscillatorShape) -> bool
    ensures { result ≡ steps_width shape }
{
    match shape {
        OscillatorShape::Triangle | OscillatorShape::SquareTriangle => false,
        _ => true,
    }
}

// The width that a sample is made with.
pub(crate) fn width_of(shape: OscillatorShape, step: f32) -> f32
    ensures { result ≡ width_of shape step }
{
    if steps_width(shape) { step } else { 0.5 }
}

// The width that the state keeps: the step that was taken, or else the one before.
pub(crate) fn kept_width(shape: OscillatorShape, step: f32, pw: f32) -> f32
    ensures { result ≡ kept_width shape step pw }
{
    if steps_width(shape) { step } else { pw }
}

// The width takes steps, and so has a room, for all shapes but two.
pub(crate) fn width_room(shape: OscillatorShape) -> Room
    ensures { result ≡ width_room shape }
{
    if steps_width(shape) {
        Room::PulseWidth
    } else {
        Room::Unused
    }
}
