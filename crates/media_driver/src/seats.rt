//! The seats that no client has.

ghost use Rattle.media_driver.specs.Parts.{AreFresh};
ghost use Rattle.std.specs.Prelude.{◌≡◌, ◌+◌, ◌<◌, IfOk, length};

use crate::hints::Hints;
use crate::mail::REPLIES;
use crate::parts::{CLIENTS, Hands, PUBLICATIONS};
use crate::seat::Seat;
use crate::starting::shared;
use decision_cache::Cache;
use media_agents::{Acknowledgements, DriverNaming, Mail, Ring, Rings, share};
use rtrb::{Consumer, RingBuffer};
use std::alloc::{AllocError, Global};
use std::marker::Model;
use std::sync::Arc;

/// A seat, and by which number the conductor knows its ring.
#[derive(Drop)]
pub(crate) struct FreeSeat<N: DriverNaming> {
    pub(crate) place: u16,
    pub(crate) seat: Seat<N>,
}

/// The seats that no client has, in room for all that there are, and what all clients share.
///
/// Contracts see how many there are.
#[derive(Drop)]
pub(crate) struct Seats<N: DriverNaming> {
    free: Vec<FreeSeat<N>>,
    hints: Arc<Hints>,
}

impl<N: DriverNaming> Model for Seats<N> {
    ghost use Rattle.std.specs.Prelude.{◌≤◌, ℕ, length};
    ghost use Rattle.std.specs.Vec.{vec_capacity};

    ghost Value = { ℕ };

    ghost view = { λ seats. length seats.free.items };

    ghost invariant = { λ seats. 64 ≤ vec_capacity seats.free };
}

/// The hints of all logs of publications.
fn make_hints(alloc: Global) -> Result<Arc<Hints>, AllocError> {
    let hints = Hints::new(alloc, PUBLICATIONS)?;
    shared(alloc, hints)
}

impl<N: DriverNaming> Seats<N> {
    /// No seats yet, and room for all.
    fn new(alloc: Global) -> Result<Seats<N>, AllocError>
        ensures { IfOk result (λ seats. seats ≡ 0) }
    {
        let hints = make_hints(alloc)?;
        Ok(Seats {
            free: Vec::with_capacity(alloc, CLIENTS as usize)?,
            hints,
        })
    }

    /// The hints of all logs of publications, for a client.
    pub(crate) fn hints(&self) -> Result<Arc<Hints>, AllocError> {
        Arc::try_clone(&self.hints)
    }

    /// How many there are.
    pub(crate) fn len(&self) -> usize
        ensures { result ≡ self.now }
    {
        self.free.len()
    }

    /// The ring of the seat that is taken next.
    pub(crate) fn next(&self) -> u16
        requires { 0 < self.now }
    {
        self.free[self.free.len() - 1].place
    }

    /// Takes one.
    pub(crate) fn take(&mut self) -> FreeSeat<N>
        requires { 0 < self.old }
        ensures { self.new + 1 ≡ self.old }
    {
        match self.free.pop() {
            Some(free) => free,
            None => unreachable!(),
        }
    }

    /// Nobody has the seat any more. It takes no memory.
    pub(crate) fn give(&mut self, place: u16, seat: Seat<N>)
        requires { self.old < 64 }
        ensures { self.new ≡ self.old + 1 }
    {
        match self.free.push(FreeSeat { place, seat }) {
            Ok(()) => {}
            Err(_) => unreachable!(),
        }
    }
}

/// The seat whose replies come by this end of a ring, and by what its commands are acknowledged.
fn make_seat<N: DriverNaming>(
    alloc: Global,
    hands: &mut Hands,
    mails: Consumer<Mail<N>, Global>,
) -> Result<(Seat<N>, Acknowledgements), AllocError>
    requires fresh { AreFresh N.book hands.old.passes.items hands.old.senders.items }
    requires passes { 0 < length hands.old.passes.items }
    requires senders { 0 < length hands.old.senders.items }
    ensures fresh { IfOk result (λ _. AreFresh N.book hands.new.passes.items hands.new.senders.items) }
    ensures passes { IfOk result (λ _. length hands.new.passes.items + 1 ≡ length hands.old.passes.items) }
    ensures senders { IfOk result (λ _. length hands.new.senders.items + 1 ≡ length hands.old.senders.items) }
{
    let cache = Cache::new(alloc)?;
    let pass = hands.pass::<N>();
    let (queue, acknowledgements) = share(alloc, hands.sender::<N>())?;
    let seat = Seat {
        pass,
        queue,
        mails,
        cache,
    };
    Ok((seat, acknowledgements))
}

/// A seat for each client, and the rings by which the conductor reaches them.
pub(crate) fn make_seats<N: DriverNaming>(
    alloc: Global,
    hands: &mut Hands,
) -> Result<(Rings<N>, Seats<N>), AllocError>
    requires fresh { AreFresh N.book hands.old.passes.items hands.old.senders.items }
    requires passes { length hands.old.passes.items ≡ 64 }
    requires senders { length hands.old.senders.items ≡ 64 }
    ensures { IfOk result (λ made. made.1 ≡ 64) }
{
    let mut rings = Vec::with_capacity(alloc, CLIENTS as usize)?;
    let mut seats = Seats::new(alloc)?;
    for place in 0..CLIENTS {
        let (producer, mails) = RingBuffer::new(alloc, REPLIES)?;
        let (seat, acknowledgements) = make_seat(alloc, hands, mails)?;
        rings.push(Ring::new(producer, acknowledgements))?;
        seats.give(place as u16, seat);
    }
    Ok((Rings::new(rings), seats))
}
