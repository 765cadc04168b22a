// A wire whose datagrams are counted by their kinds as they are sent.
ghost use Rattle.std.specs.Prelude.{◌≡◌};

use driver_core::Address;
use frame_codec::{Datagram, Packet};
use media_wire::{Wire, WireFault};
use std::marker::Model;

// How many datagrams of each kind were sent.
#[derive(Clone, Copy, PartialEq, Eq)]
pub struct Kinds {
    pub setups: u64,
    pub status_messages: u64,
    pub heartbeats: u64,
    pub others: u64,
}

// None was sent.
pub const NONE: Kinds = Kinds {
    setups: 0,
    status_messages: 0,
    heartbeats: 0,
    others: 0,
};

// What three datagrams of one kind count as.
pub const SETUPS: Kinds = Kinds { setups: 3, ..NONE };

pub const STATUS_MESSAGES: Kinds = Kinds {
    status_messages: 3,
    ..NONE
};

pub const HEARTBEATS: Kinds = Kinds {
    heartbeats: 3,
    ..NONE
};

impl Kinds {
    // One more was sent.
    fn count(&mut self, bytes: &[u8]) {
        match Datagram::read(bytes) {
            Ok(Packet::Setup(_)) => self.setups = self.setups.saturating_add(1),
            Ok(Packet::Sm(_)) => self.status_messages = self.status_messages.saturating_add(1),
            Ok(Packet::Beat(_)) => self.heartbeats = self.heartbeats.saturating_add(1),
            _ => self.others = self.others.saturating_add(1),
        }
    }
}

// The wire, and how many datagrams were sent by it.
#[derive(Drop)]
pub struct Watched<W> {
    wire: W,
    sent: Kinds,
}

impl<W> Model for Watched<W> {
    ghost Value = { W };

    ghost view = { λ watched. watched.wire };
}

impl<W> Watched<W> {
    // Nothing was sent by it yet.
    pub fn new(wire: W) -> Watched<W>
        ensures { result ≡ wire }
    {
        Watched { wire, sent: NONE }
    }

    // The wire itself.
    pub fn wire(&self) -> &W
        ensures { result.now ≡ self.now }
    {
        &self.wire
    }

    // What was sent since this was asked last.
    pub fn sent(&mut self) -> Kinds
        ensures { self.new ≡ self.old }
    {
        let sent = self.sent;
        self.sent = NONE;
        sent
    }
}

impl<W: Wire> Wire for Watched<W> {
    ghost went = { λ wire events. W.went wire events };

    fn send(&mut self, local: &Address, to: &Address, bytes: &[u8]) -> Result<(), WireFault> {
        self.sent.count(bytes);
        self.wire.send(local, to, bytes)
    }

    fn recv(
        &mut self,
        local: &Address,
        buffer: &mut [u8],
    ) -> Result<Option<(usize, Address)>, WireFault> {
        self.wire.recv(local, buffer)
    }

    fn turn_ended(&mut self) {
        self.wire.turn_ended();
    }

    fn failures(&self) -> u64 {
        self.wire.failures()
    }
}
