ghost use Rattle.media_wire.specs.Events.{Event, counted, read_event, sent_event};
ghost use Rattle.media_wire.specs.Holds.{IsHeld};
ghost use Rattle.media_wire.specs.Letters.{letter};
ghost use Rattle.media_wire.specs.Turns.{are_whole, one_ended};
ghost use Rattle.std.specs.Prelude.{◌≡◌, ◌≤◌, ◌+◌, ◌-◌, ◌^◌, ◌++◌, ◌∷◌, [], List, All, IfOk, IfSome, OnOk, false, if◌then◌else◌, length, min, replicate, vec_len};

use crate::wire::{Wire, WireFault};
use channel_uri::Address;
use std::alloc::{AllocError, Global};
use std::marker::Model;
use std::sync::{Arc, Mutex, Wait};

// The wire that is shared, and how many turns each of those that share it has ended since the wire's own turn last ended.
#[derive(Drop)]
struct Common<W> {
    wire: W,
    turns: Vec<u8>,
}

fn count_turn(turns: &mut [u8], place: usize)
    ensures { turns.new ≡ one_ended turns.old place }
{
    if place < turns.len() {
        turns[place] = turns[place].saturating_add(1);
    }
}

fn are_whole(turns: &[u8]) -> bool
    ensures { result ≡ are_whole turns.now }
{
    turns.iter().all(|count| *count > 1)
}

// One more turn ended. Whether each has made a whole turn by now; then they are counted anew.
fn is_round_over(turns: &mut [u8], place: usize) -> bool
    ensures over { result ≡ are_whole (one_ended turns.old place) }
    ensures turns { turns.new ≡ (if result then replicate (length turns.old) 0 else one_ended turns.old place) }
{
    count_turn(turns, place);
    if !are_whole(turns) {
        return false;
    }
    turns.fill(0);
    true
}

impl<W: Wire> Common<W> {
    // The place of one more.
    fn join(&mut self) -> Result<usize, AllocError>
        ensures place { IfOk result (λ place. place ≡ vec_len self.old.turns) }
        ensures turns { OnOk result (self.new.turns.items ≡ self.old.turns.items ++ 0 ∷ []) }
        ensures wire { self.new.wire ≡ self.old.wire }
    {
        let place = self.turns.len();
        self.turns.push(0)?;
        Ok(place)
    }

    // Sends by the wire, once.
    fn send(&mut self, local: &Address, to: &Address, bytes: &[u8]) -> Result<(), WireFault>
        ensures wire { (events : List Event) → W.went self.old.wire events
            → W.went self.new.wire (events ++ sent_event (letter local.now to.now bytes.now) result ∷ []) }
        ensures turns { self.new.turns ≡ self.old.turns }
    {
        self.wire.send(local, to, bytes)
    }

    // Reads by the wire, once.
    fn recv(
        &mut self,
        local: &Address,
        buffer: &mut [u8],
    ) -> Result<Option<(usize, Address)>, WireFault>
        requires { 65507 ≤ length buffer.old }
        ensures within { IfOk result (λ read. IfSome read (λ datagram. datagram.0 ≤ length buffer.new)) }
        ensures wire { (events : List Event) → W.went self.old.wire events
            → W.went self.new.wire (events ++ read_event local.now buffer.new result ∷ []) }
        ensures turns { self.new.turns ≡ self.old.turns }
    {
        self.wire.recv(local, buffer)
    }

    // The turn of one ended.
    fn turn_ended(&mut self, place: usize)
        ensures turns { self.new.turns.items ≡ (if are_whole (one_ended self.old.turns.items place)
            then replicate (vec_len self.old.turns) 0 else one_ended self.old.turns.items place) }
        ensures waits { are_whole (one_ended self.old.turns.items place) ≡ false → self.new.wire ≡ self.old.wire }
        ensures kept { (events : List Event) → W.went self.old.wire events → W.went self.new.wire events }
    {
        if is_round_over(&mut self.turns, place) {
            self.wire.turn_ended();
        }
    }
}

/// A wire that several threads use: each has one of these, and a call takes the lock of the wire for its time. The failures of
/// one are those of its own calls, and each of its events is what one call of a wire did in one hold of a lock. That it is the
/// wire that they share, and what else goes over it, no contract says.
///
/// Threads end their turns at different times. The turn of the wire itself ends once each that shares it has ended two turns
/// since the wire's last: the second of them is a whole turn, so that what each of them uses in every turn was used. While one
/// ends no turn, the wire's turn does not end.
#[derive(Drop)]
pub struct Shared<W, R> {
    common: Arc<Mutex<Common<W>>>,
    rt: R,
    place: usize,
    failures: u64,
}

impl<W, R> Model for Shared<W, R> {
    ghost use Rattle.std.specs.Prelude.{ℕ};

    ghost Value = { ℕ };

    ghost view = { λ shared. shared.failures };
}

impl<W: Wire + Drop, R: Wait + Copy> Shared<W, R> {
    /// The first one of a wire.
    pub fn new(alloc: Global, rt: R, wire: W) -> Result<Shared<W, R>, AllocError>
        ensures { IfOk result (λ shared. shared ≡ 0) }
    {
        let turns = vec![in alloc; 0u8; 1]?;
        let common = Common { wire, turns };
        Ok(Shared {
            common: Arc::new(alloc, Mutex::new(common))?,
            rt,
            place: 0,
            failures: 0,
        })
    }

    /// Another one of the same wire.
    pub fn another(&self) -> Result<Shared<W, R>, AllocError>
        ensures { IfOk result (λ shared. shared ≡ 0) }
    {
        let common = Arc::try_clone(&self.common)?;
        let place = common.lock(&self.rt).join()?;
        Ok(Shared {
            common,
            rt: self.rt,
            place,
            failures: 0,
        })
    }

    fn fail(&mut self) -> WireFault
        ensures { self.new ≡ min (self.old + 1) (2 ^ 64 - 1) }
    {
        self.failures = self.failures.saturating_add(1);
        WireFault
    }
}

impl<W: Wire + Drop, R: Wait + Copy> Wire for Shared<W, R> {
    // Each event is that of one call of the wire below, in one hold of its lock.
    ghost went = { λ failures events. (failures ≡ counted events) × All (IsHeld W.went) events };

    fn send(&mut self, local: &Address, to: &Address, bytes: &[u8]) -> Result<(), WireFault> {
        let sent = self.common.lock(&self.rt).send(local, to, bytes);
        match sent {
            Ok(()) => Ok(()),
            Err(_) => Err(self.fail()),
        }
    }

    fn recv(
        &mut self,
        local: &Address,
        buffer: &mut [u8],
    ) -> Result<Option<(usize, Address)>, WireFault> {
        let read = self.common.lock(&self.rt).recv(local, buffer);
        match read {
            Ok(read) => Ok(read),
            Err(_) => Err(self.fail()),
        }
    }

    fn turn_ended(&mut self)
        ensures same { self.new ≡ self.old }
        ensures kept { (events : List Event) → (self.old ≡ counted events) × All (IsHeld W.went) events
            → (self.new ≡ counted events) × All (IsHeld W.went) events }
    {
        self.common.lock(&self.rt).turn_ended(self.place);
    }

    fn descriptor(&self, local: &Address) -> Option<i32> {
        self.common.lock(&self.rt).wire.descriptor(local)
    }

    fn failures(&self) -> u64 {
        self.failures
    }
}
