//! Where each actor stands: which registry it looked at last, and at which moment.

ghost use Rattle.driver_world.specs.Views.{attached_at, first_seat, no_seats, seat_of, seat_place, seated};
ghost use Rattle.std.specs.Prelude.{◌≡◌, ◌<◌, length, OnOk};

use crate::actor::Actor;
use driver_core::Response;
use std::alloc::{AllocError, Global};
use std::marker::Model;

/// Where an actor stands.
#[derive(Clone, Copy, Debug, PartialEq, Eq)]
pub struct Seat {
    /// The number of the registry that it looked at last.
    pub view: u64,
    /// The greatest moment of its steps, in nanoseconds; 0 where there was none.
    pub moment: u64,
}

/// The seats of the sender, of the receiver, and of each client that ever attached.
#[derive(Drop)]
pub(crate) struct AllSeats {
    sender: Seat,
    receiver: Seat,
    /// By the clients' ids, in the order in which they attached.
    clients: Vec<(u64, Seat)>,
}

impl Model for AllSeats {
    ghost use Rattle.driver_world.specs.Views.{HeldSeats};
    ghost use Rattle.std.specs.Vec.{vec_capacity};

    ghost Value = { HeldSeats };

    ghost view = { λ held. record {
      seats = record { sender = held.sender; receiver = held.receiver; clients = held.clients.items };
      room = vec_capacity held.clients;
    } };
}

/// Where the first client of that id is in the list.
fn place_of(clients: &[(u64, Seat)], id: u64) -> Option<usize>
    ensures { result ≡ seat_place clients.now id }
{
    clients.iter().position(|client| client.0 == id)
}

/// Where an actor stands that took no step yet, and that no attach named.
fn first_seat() -> Seat
    ensures { result ≡ first_seat }
{
    Seat { view: 0, moment: 0 }
}

impl AllSeats {
    /// No client attached yet.
    pub(crate) fn new(alloc: Global) -> AllSeats
        ensures { result.seats ≡ no_seats }
    {
        AllSeats {
            sender: first_seat(),
            receiver: first_seat(),
            clients: Vec::new(alloc),
        }
    }

    /// Takes the memory for a further client.
    pub(crate) fn make_room(&mut self) -> Result<(), AllocError>
        ensures same { self.new.seats ≡ self.old.seats }
        ensures room { OnOk result (length self.new.seats.clients < self.new.room) }
    {
        self.clients.reserve(1)
    }

    /// Where the actor stands.
    pub(crate) fn get(&self, actor: Actor) -> Seat
        ensures { result ≡ seat_of actor self.now.seats }
    {
        match actor {
            Actor::Conductor => first_seat(),
            Actor::Sender => self.sender,
            Actor::Receiver => self.receiver,
            Actor::Client(id) => match place_of(self.clients.as_slice(), id) {
                Some(at) => self.clients[at].1,
                None => first_seat(),
            },
        }
    }

    /// The actor stands there now. A client that no attach named stands where it stood.
    #[inline(always)]
    pub(crate) fn set(&mut self, actor: Actor, seat: Seat)
        ensures { self.new ≡ record self.old { seats = seated actor seat self.old.seats } }
    {
        match actor {
            Actor::Conductor => {}
            Actor::Sender => self.sender = seat,
            Actor::Receiver => self.receiver = seat,
            Actor::Client(id) => match place_of(self.clients.as_slice(), id) {
                Some(at) => self.clients[at].1 = seat,
                None => {}
            },
        }
    }

    /// A client of that id looks first at that registry, or none does.
    pub(crate) fn attach(&mut self, response: Response, view: u64)
        requires { length self.old.seats.clients < self.old.room }
        ensures { self.new.seats ≡ attached_at view response self.old.seats }
    {
        match response {
            Response::Attached(id) => self.clients.push_reserved((id, Seat { view, moment: 0 })),
            _ => {}
        }
    }
}
