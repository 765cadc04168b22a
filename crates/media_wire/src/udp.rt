ghost use Rattle.media_wire.specs.Doors.{Reads, Sends, UsesIts};
ghost use Rattle.media_wire.specs.Events.{Event, counted, read_event, sent_event};
ghost use Rattle.media_wire.specs.Letters.{letter};
ghost use Rattle.media_wire.specs.Sockets.{called_once, counted_once, new_sockets, turned};
ghost use Rattle.std.specs.Prelude.{◌≡◌, ◌≤◌, ◌++◌, ◌∷◌, [], List, IfOk, IfSome, IsErr, is_ok, length};

use crate::doors::{Door, close_unused, descriptor_of, recv_at, send_from};
use crate::socket::Socket;
use crate::wire::{Wire, WireFault};
use channel_uri::Address;
use std::alloc::{AllocError, Global};
use std::marker::Model;
use std::net::{Net, UdpSocket};

/// The sockets of the system, for datagrams of the User Datagram Protocol. One is opened for an address where it is first sent
/// from or read at; where one can't be opened the call fails, and the next one there tries again. It is closed at the end of a
/// turn that did not use it, and with the wire. There is room for so many at once as [`Udp::new`] is given: another one takes the
/// place of that which was not used for the longest, the first opened of several. After `new` no call takes memory.
#[derive(Drop)]
pub struct Udp<N: Net, S: Socket = UdpSocket> {
    net: N,
    doors: Vec<Door<S>>,
    places: usize,
    calls: u64,
    turn: u64,
    failures: u64,
}

impl<N: Net, S: Socket> Model for Udp<N, S> {
    ghost use Rattle.media_wire.specs.Sockets.{Sockets};
    ghost use Rattle.std.specs.Prelude.{◌<◌, ◌≤◌, vec_capacity, vec_len};

    ghost Value = { Sockets S };

    ghost view = { λ udp. record { places = udp.places; doors = udp.doors.items; calls = udp.calls; turn = udp.turn; failures = udp.failures } };

    ghost invariant = { λ udp. (0 < udp.places) × (vec_len udp.doors ≤ udp.places) × (udp.places ≤ vec_capacity udp.doors) };
}

impl<N: Net + Drop> Udp<N> {
    /// No socket, and room for so many at once, at least one.
    pub fn new(alloc: Global, net: N, places: usize) -> Result<Udp<N>, AllocError>
        ensures { IfOk result (λ udp. udp ≡ new_sockets places) }
    {
        let places = places.max(1);
        Ok(Udp {
            net,
            doors: Vec::with_capacity(alloc, places)?,
            places,
            calls: 0,
            turn: 0,
            failures: 0,
        })
    }
}

// How many calls failed once one more was made.
fn failed_of<T>(failures: u64, answered: &Result<T, WireFault>) -> u64
    ensures { result ≡ counted_once (is_ok answered.now) failures }
{
    match answered {
        Ok(_) => failures,
        Err(_) => failures.saturating_add(1),
    }
}

impl<N: Net + Drop, S: Socket + Drop> Wire for Udp<N, S> {
    ghost went = { λ sockets events. sockets.failures ≡ counted events };

    fn send(&mut self, local: &Address, to: &Address, bytes: &[u8]) -> Result<(), WireFault>
        ensures event { (events : List Event) → self.old.failures ≡ counted events
            → self.new.failures ≡ counted (events ++ sent_event (letter local.now to.now bytes.now) result ∷ []) }
        ensures called { self.new ≡ called_once self.old self.new.doors (is_ok result) }
        ensures used { UsesIts S.did S.stands (λ door next. Sends S.did S.stands self.new.calls to.now bytes.now door next result) (IsErr result)
            self.old.places self.new.calls local.now self.old.doors self.new.doors }
    {
        self.calls = self.calls.saturating_add(1);
        let (places, call) = (self.places, self.calls);
        let sent = send_from(&self.net, &mut self.doors, places, call, local, to, bytes);
        self.failures = failed_of(self.failures, &sent);
        sent
    }

    fn recv(
        &mut self,
        local: &Address,
        buffer: &mut [u8],
    ) -> Result<Option<(usize, Address)>, WireFault>
        requires { 65507 ≤ length buffer.old }
        ensures within { IfOk result (λ read. IfSome read (λ datagram. datagram.0 ≤ length buffer.new)) }
        ensures event { (events : List Event) → self.old.failures ≡ counted events
            → self.new.failures ≡ counted (events ++ read_event local.now buffer.new result ∷ []) }
        ensures called { self.new ≡ called_once self.old self.new.doors (is_ok result) }
        ensures used { UsesIts S.did S.stands (λ door next. Reads S.did S.stands self.new.calls buffer.new door next result) (IsErr result)
            self.old.places self.new.calls local.now self.old.doors self.new.doors }
    {
        self.calls = self.calls.saturating_add(1);
        let (places, call) = (self.places, self.calls);
        let read = recv_at(&self.net, &mut self.doors, places, call, local, buffer);
        self.failures = failed_of(self.failures, &read);
        read
    }

    fn turn_ended(&mut self)
        ensures kept { (events : List Event) → self.old.failures ≡ counted events → self.new.failures ≡ counted events }
        ensures turned { self.new ≡ turned self.old }
    {
        close_unused(&mut self.doors, self.turn);
        self.turn = self.calls;
    }

    fn descriptor(&self, local: &Address) -> Option<i32> {
        descriptor_of(&self.doors, local)
    }

    fn failures(&self) -> u64 {
        self.failures
    }
}
