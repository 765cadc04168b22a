//! The commands of a principal's clients that are not answered.

ghost use Rattle.service_bounds.specs.Flights.{IsSent, answered, is_left, is_other_turn, is_others, is_removing, remaining, removal_of, turn_of};
ghost use Rattle.std.specs.Prelude.{◌≡◌, filter};

use crate::bounds::Bound;
use crate::row::Removal;

/// A command that went to the driver and is not answered.
#[derive(Clone, Copy, Debug, PartialEq, Eq, Drop)]
pub struct Flight {
    pub client: u64,
    pub correlation: u64,
    /// How many commands of its client went before it.
    pub turn: u64,
    /// What it removes, if it removes something.
    pub removes: Option<Removal>,
    /// Until when it counts, where no reply may come to it, in nanoseconds.
    pub until: Option<u64>,
}

/// What no reply may come to counts no more after its time.
fn let_go(flights: &mut Vec<Flight>, now: u64)
    ensures { flights.new.items ≡ remaining now flights.old.items }
{
    flights.retain(|flight| match flight.until {
        Some(end) => now < end,
        None => true,
    });
}

/// The turn of the first command of a client with that correlation id.
fn turn_of(flights: &[Flight], client: u64, correlation: u64) -> Option<u64>
    ensures { result ≡ turn_of client correlation flights.now }
{
    for flight in flights {
        if flight.client == client && flight.correlation == correlation {
            return Some(flight.turn);
        }
    }
    None
}

/// What the first command of a client with that correlation id removes.
pub(crate) fn removal_of(flights: &[Flight], client: u64, correlation: u64) -> Option<Removal>
    ensures { result ≡ removal_of client correlation flights.now }
{
    for flight in flights {
        if flight.client == client && flight.correlation == correlation {
            return flight.removes;
        }
    }
    None
}

/// Whether a command of a client with that correlation id removes something, and is not answered.
pub(crate) fn is_removing(flights: &[Flight], client: u64, correlation: u64) -> bool
    ensures { result ≡ is_removing client correlation flights.now }
{
    removal_of(flights, client, correlation).is_some()
}

/// What a client sent up to that turn is answered.
fn answer(flights: &mut Vec<Flight>, client: u64, turn: u64)
    ensures { flights.new.items ≡ filter (is_left client turn) flights.old.items }
{
    flights.retain(|flight| flight.client != client || turn < flight.turn);
}

/// A reply names that command: it is answered, and so is all that its client sent before.
pub(crate) fn answered(flights: &mut Vec<Flight>, client: u64, correlation: u64)
    ensures { flights.new.items ≡ answered client correlation flights.old.items }
{
    if let Some(turn) = turn_of(flights.as_slice(), client, correlation) {
        answer(flights, client, turn);
    }
}

/// What a client sent at that turn did not go.
pub(crate) fn take_back(flights: &mut Vec<Flight>, client: u64, turn: u64)
    ensures { flights.new.items ≡ filter (is_other_turn client turn) flights.old.items }
{
    flights.retain(|flight| flight.client != client || flight.turn != turn);
}

/// A client is gone.
pub(crate) fn forget(flights: &mut Vec<Flight>, client: u64)
    ensures { flights.new.items ≡ filter (is_others client) flights.old.items }
{
    flights.retain(|flight| flight.client != client);
}

/// One more goes, where fewer than so many are not answered.
pub(crate) fn send(
    flights: &mut Vec<Flight>,
    most: u64,
    now: u64,
    flight: Flight,
) -> Result<(), Option<Bound>>
    ensures { IsSent most now flight flights.old.items flights.new.items result }
{
    let_go(flights, now);
    if flights.len() as u64 >= most {
        return Err(Some(Bound::Commands));
    }
    match flights.push(flight) {
        Ok(()) => Ok(()),
        Err(_) => Err(None),
    }
}
