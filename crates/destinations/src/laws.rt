//! What holds of every table of destinations: each function does nothing, and its clause is the law.

ghost use Rattle.destinations.specs.Laws.{RoomIsForEverySource, StaysOrderly};

/// Numbers rise from destination to destination and none is above the one that was given last, no log has more than 32
/// destinations, and none has an address twice: so it is at first and after every call. So no number is given again,
/// whatever went.
pub fn destinations_are_orderly()
    ensures { StaysOrderly }
{}

/// Where the destinations are of 256 logs at most, the room is not what refuses one more for one of these.
pub fn room_is_for_every_source()
    ensures { RoomIsForEverySource }
{}
