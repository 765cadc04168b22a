//! A wire with a guard.

ghost use Rattle.guarded_wire.specs.Guards.{Rules};
ghost use Rattle.guarded_wire.specs.Origins.{place_of};
ghost use Rattle.guarded_wire.specs.Reads.{IsGuarded};
ghost use Rattle.media_wire.specs.Events.{Event, read_event, sent_event};
ghost use Rattle.media_wire.specs.Letters.{letter};
ghost use Rattle.std.specs.Prelude.{◌≡◌, ◌≤◌, ◌++◌, ◌∷◌, [], List, IfOk, IfSome, is_some, length, true};

use crate::drops::Drops;
use crate::guard::Guard;
use channel_uri::Address;
use media_wire::{Wire, WireFault};
use std::sync::Arc;
use std::time::Clock;

/// How many datagrams a call drops at most, before it says that nothing is there.
const MOST: usize = 1024;

/// A wire around another one, which drops what may not go on as it reads it.
#[derive(Drop)]
pub struct Guarded<W, C> {
    wire: W,
    clock: C,
    guard: Guard,
    drops: Arc<Drops>,
}

impl<W, C> Guarded<W, C> {
    /// What is dropped counts there.
    pub fn new(wire: W, clock: C, guard: Guard, drops: Arc<Drops>) -> Guarded<W, C>
        ensures wire { result.wire ≡ wire }
        ensures guard { result.guard ≡ guard }
    {
        Guarded {
            wire,
            clock,
            guard,
            drops,
        }
    }
}

impl<W: Wire, C: Clock> Wire for Guarded<W, C> {
    ghost went = { λ guarded events. IsGuarded W.went guarded.wire guarded.guard 0 events };

    fn send(&mut self, local: &Address, to: &Address, bytes: &[u8]) -> Result<(), WireFault>
        ensures event { (events : List Event) → IsGuarded W.went self.old.wire self.old.guard 0 events
            → IsGuarded W.went self.new.wire self.new.guard 0 (events ++ sent_event (letter local.now to.now bytes.now) result ∷ []) }
    {
        self.wire.send(local, to, bytes)
    }

    fn recv(
        &mut self,
        local: &Address,
        buffer: &mut [u8],
    ) -> Result<Option<(usize, Address)>, WireFault>
        requires { 65507 ≤ length buffer.old }
        ensures within { IfOk result (λ read. IfSome read (λ datagram. datagram.0 ≤ length buffer.new)) }
        ensures event { (events : List Event) → IsGuarded W.went self.old.wire self.old.guard 0 events
            → IsGuarded W.went self.new.wire self.new.guard 0 (events ++ read_event local.now buffer.new result ∷ []) }
        ensures bound { IfOk result (λ read. IfSome read (λ datagram.
            self.old.guard.rules.drops ≡ true → is_some (place_of datagram.1 self.old.guard.rules.origins) ≡ true)) }
        ensures rules { self.new.guard.rules ≡ self.old.guard.rules }
    {
        for _dropped in 0..MOST {
            let (length, from) = match self.wire.recv(local, buffer) {
                Ok(Some(read)) => read,
                Ok(None) => return Ok(None),
                Err(fault) => return Err(fault),
            };
            match self.guard.judge(&self.clock, &from, &buffer[..length]) {
                None => return Ok(Some((length, from))),
                Some(cause) => self.drops.note(cause),
            }
        }
        Ok(None)
    }

    fn turn_ended(&mut self)
        ensures kept { (events : List Event) → IsGuarded W.went self.old.wire self.old.guard 0 events
            → IsGuarded W.went self.new.wire self.new.guard 0 events }
    {
        self.wire.turn_ended();
    }

    fn descriptor(&self, local: &Address) -> Option<i32> {
        self.wire.descriptor(local)
    }

    fn failures(&self) -> u64 {
        self.wire.failures()
    }
}
