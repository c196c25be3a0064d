// The five places of interpolators, the rooms of 01 by kind of parameter, the walk that looks for the first step outside its room, and the tests that spare it.
#![tactic(auto)]

ghost use Rattle.std.specs.Prelude.{◌≡◌, cond, ℕ, ◌≤◌, get_or};
ghost use Rattle.rooms.specs.Rooms.{in_room};
ghost use Rattle.rooms.specs.Steps.{still_one, moved, steps_of, first_outside};
ghost use Rattle.rooms.specs.Safe.{safe_in};

use parameter_interpolator::ParameterInterpolator;

// An interpolator for a place that an oscillator does not use.
pub fn still() -> ParameterInterpolator
    ensures { result ≡ still_one }
{
    ParameterInterpolator {
        value: 0.0,
        increment: 0.0,
    }
}

// One sample on. One by one: with the array's `map` the proof did not close.
pub fn advance(p: [ParameterInterpolator; 5]) -> [ParameterInterpolator; 5]
    ensures { result ≡ moved p }
{
    [
        p[0].next(),
        p[1].next(),
        p[2].next(),
        p[3].next(),
        p[4].next(),
    ]
}

// What a parameter's steps are kept within. An unused one has no steps to test.
#[derive(Clone, Copy)]
pub enum Room {
    Unused,
    Frequency,
    StringFrequency,
    PulseWidth,
    Waveshape,
    ModulationOrGain,
}

// Ends are taken as 01 has them, and a NaN lies in no room but that of an unused place.
pub fn in_room(room: Room, x: f32) -> bool
    ensures { result ≡ in_room room x }
{
    match room {
        Room::Unused => true,
        Room::Frequency => (x > 0.0) & (x <= 0.265625),
        Room::StringFrequency => (x > 0.0) & (x <= 0.53125),
        Room::PulseWidth => (x > 0.0) & (x < 1.0),
        Room::Waveshape => (x >= -1.0) & (x <= 2.0),
        Room::ModulationOrGain => (x >= -16.0) & (x <= 16.0),
    }
}

// How many places the walk looks at: the rooms from there on are unused, and most oscillators have some. `rposition` would give a place, to which one is
// added, and a second way where there is none.
fn used_places(rooms: [Room; 5]) -> usize
    ensures within { result ≤ 5 }
    ensures rest { (k : ℕ) → result ≤ k → get_or rooms k Room.Unused ≡ Room.Unused }
{
    let mut used = 5;
    while let Some(Room::Unused) = rooms[..used].last() {
        used -= 1;
    }
    used
}

// The walk over samples and parameters, which stops at the first step outside its room, and gives its sample. The places go by number, since it moves on
// the one array and reads the other: rooms stay for a block, and so are no part of the interpolators.
pub fn first_outside(
    interpolators: [ParameterInterpolator; 5],
    rooms: [Room; 5],
    n: u32,
) -> Option<u32>
    ensures { result ≡ first_outside rooms (steps_of n interpolators) }
{
    let used = used_places(rooms);
    let mut moving = interpolators;
    for i in 0..n {
        for k in 0..used {
            let p = moving[k].next();
            moving[k] = p;
            if !in_room(rooms[k], p.value) {
                return Some(i);
            }
        }
    }
    None
}

// Whether no step of a block from this value to this target can leave its room, of a value in the state's range and a target as the source makes it:
// a `false` leaves it open. A falling frequency or width has to stay above 0 in spite of rounding, and a rising width below 1.
pub fn safe(room: Room, value: f32, target: f32) -> bool
    ensures { result ≡ safe_in room value target }
{
    match room {
        Room::Unused => true,
        Room::Frequency => value <= target * 2048.0,
        Room::StringFrequency => value <= target * 2048.0,
        Room::PulseWidth => (value < 1.0) & (value <= target * 2048.0) & (target <= 0.999755859375),
        Room::Waveshape => true,
        Room::ModulationOrGain => true,
    }
}

// The interpolators of a block, and whether each of its parameters is safe.
#[derive(Clone, Copy)]
pub struct Glides {
    pub interpolators: [ParameterInterpolator; 5],
    pub safe: bool,
}

// The first step outside its room. The walk costs more than the samples do, and where every parameter is safe there is nothing to look for.
pub fn find_drift(glides: Glides, rooms: [Room; 5], n: u32) -> Option<u32>
    ensures { result ≡ cond glides.safe None (first_outside rooms (steps_of n glides.interpolators)) }
{
    if glides.safe {
        return None;
    }
    first_outside(glides.interpolators, rooms, n)
}
