ghost use Rattle.media_wire.specs.Events.{Event, read_event, sent_event};
ghost use Rattle.media_wire.specs.Letters.{letter};
ghost use Rattle.media_wire.specs.Trials.{Passes, Tries, called, is_due, new_trial};
ghost use Rattle.std.specs.Prelude.{◌≡◌, ◌≤◌, ◌+◌, ◌-◌, ◌^◌, ◌++◌, ◌∷◌, [], List, IfOk, IfSome, length, min};

use crate::wire::{Wire, WireFault};
use channel_uri::Address;
use std::marker::Model;

/// A wire of which one call fails, or all calls from one on, whatever they send or read; the other calls are the wire's own.
#[derive(Drop)]
pub struct Faulty<W> {
    wire: W,
    ahead: u64,
    lasts: bool,
    is_over: bool,
    failures: u64,
}

impl<W> Model for Faulty<W> {
    ghost use Rattle.media_wire.specs.Trials.{Trial};

    ghost Value = { Trial W };

    ghost view = { λ faulty. record { wire = faulty.wire; ahead = faulty.ahead; lasts = faulty.lasts; over = faulty.is_over; failures = faulty.failures } };
}

impl<W> Faulty<W> {
    /// `ahead` calls go through, and the one after them fails; all that follow fail too where it `lasts`.
    pub fn new(wire: W, ahead: u64, lasts: bool) -> Faulty<W>
        ensures { result ≡ new_trial wire ahead lasts }
    {
        Faulty {
            wire,
            ahead,
            lasts,
            is_over: false,
            failures: 0,
        }
    }

    fn fail(&mut self) -> WireFault
        ensures { self.new ≡ record self.old { failures = min (self.old.failures + 1) (2 ^ 64 - 1) } }
    {
        self.failures = self.failures.saturating_add(1);
        WireFault
    }

    // Whether the call that is made fails.
    fn is_due(&mut self) -> bool
        ensures due { result ≡ is_due self.old }
        ensures called { self.new ≡ called self.old }
    {
        if self.ahead > 0 {
            self.ahead -= 1;
            return false;
        }
        if self.is_over {
            return false;
        }
        self.is_over = !self.lasts;
        true
    }
}

impl<W: Wire> Wire for Faulty<W> {
    ghost went = { λ trial events. Tries W.went trial.wire trial.failures events };

    fn send(&mut self, local: &Address, to: &Address, bytes: &[u8]) -> Result<(), WireFault>
        ensures event { (events : List Event) → Tries W.went self.old.wire self.old.failures events
            → Tries W.went self.new.wire self.new.failures (events ++ sent_event (letter local.now to.now bytes.now) result ∷ []) }
        ensures passes { Passes W.went self.old self.new (sent_event (letter local.now to.now bytes.now) result) }
    {
        if self.is_due() {
            return Err(self.fail());
        }
        match self.wire.send(local, to, bytes) {
            Ok(()) => Ok(()),
            Err(_) => Err(self.fail()),
        }
    }

    fn recv(
        &mut self,
        local: &Address,
        buffer: &mut [u8],
    ) -> Result<Option<(usize, Address)>, WireFault>
        requires { 65507 ≤ length buffer.old }
        ensures within { IfOk result (λ read. IfSome read (λ datagram. datagram.0 ≤ length buffer.new)) }
        ensures event { (events : List Event) → Tries W.went self.old.wire self.old.failures events
            → Tries W.went self.new.wire self.new.failures (events ++ read_event local.now buffer.new result ∷ []) }
        ensures passes { Passes W.went self.old self.new (read_event local.now buffer.new result) }
    {
        if self.is_due() {
            return Err(self.fail());
        }
        match self.wire.recv(local, buffer) {
            Ok(read) => Ok(read),
            Err(_) => Err(self.fail()),
        }
    }

    fn turn_ended(&mut self)
        ensures kept { (events : List Event) → Tries W.went self.old.wire self.old.failures events
            → Tries W.went self.new.wire self.new.failures events }
        ensures own { (events : List Event) → W.went self.old.wire events → W.went self.new.wire events }
        ensures rest { self.new ≡ record self.old { wire = self.new.wire } }
    {
        self.wire.turn_ended();
    }

    fn descriptor(&self, local: &Address) -> Option<i32> {
        self.wire.descriptor(local)
    }

    fn failures(&self) -> u64 {
        self.failures
    }
}
