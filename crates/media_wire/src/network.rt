ghost use Rattle.media_wire.specs.Events.{Event, counted, read_event, sent_event};
ghost use Rattle.media_wire.specs.Letters.{AreShort, is_for, letter};
ghost use Rattle.media_wire.specs.Networks.{Goes, carried, failed_once, flying, opened, taken};
ghost use Rattle.std.specs.List.{position};
ghost use Rattle.std.specs.Prelude.{◌≡◌, ◌≤◌, ◌++◌, ◌∷◌, [], List, IfOk, IfSome, IsOk, MatchOption, OnErr, OnOk, Some, None, length};

use crate::LONGEST;
use crate::letter::Letter;
use crate::wire::{Wire, WireFault};
use channel_uri::Address;
use std::alloc::{AllocError, Global};
use std::marker::Model;

/// What becomes of a letter that is sent.
#[derive(Clone, Copy, Debug, PartialEq, Eq)]
pub enum Fate {
    /// It goes after all that are on their way.
    Arrives,
    /// It goes nowhere.
    IsLost,
    /// It goes twice.
    IsRepeated,
    /// It goes in front of the last that is on its way.
    Overtakes,
}

/// A network in memory: the letters that were sent and are not read yet, in their order.
#[derive(Drop)]
pub struct Network {
    letters: Vec<Letter>,
    fates: Vec<Fate>,
    turn: usize,
    failures: u64,
    alloc: Global,
}

impl Model for Network {
    ghost use Rattle.media_wire.specs.Letters.{AreShort};
    ghost use Rattle.media_wire.specs.Networks.{Net};

    ghost Value = { Net };

    ghost view = { λ network. record { fates = network.fates.items; flight = record { letters = network.letters.items; turn = network.turn }; failures = network.failures } };

    ghost invariant = { λ network. AreShort network.letters.items };
}

// A letter goes, by its fate, among those on their way.
fn carry(letters: &mut Vec<Letter>, alloc: Global, fate: Fate, it: Letter) -> Result<(), AllocError>
    requires letters { AreShort letters.old.items }
    requires it { length it.bytes ≤ 65507 }
    ensures short { AreShort letters.new.items }
    ensures ok { OnOk result (letters.new.items ≡ carried fate it letters.old.items) }
    ensures err { OnErr result (letters.new.items ≡ letters.old.items) }
{
    match fate {
        Fate::Arrives => letters.push(it)?,
        Fate::IsLost => {}
        Fate::IsRepeated => {
            letters.reserve(2)?;
            let other = it.copy(alloc)?;
            letters.push(it)?;
            letters.push(other)?;
        }
        Fate::Overtakes => {
            let place = letters.len().saturating_sub(1);
            letters.insert(place, it)?;
        }
    }
    Ok(())
}

// Where the first letter stands that goes to an address.
fn place_of(letters: &[Letter], address: &Address) -> Option<usize>
    ensures { result ≡ position (is_for address.now) letters.now }
{
    letters.iter().position(|it| it.to.is(address))
}

impl Network {
    /// A network on which every letter arrives.
    pub fn new(alloc: Global) -> Network
        ensures { result ≡ opened [] }
    {
        Network::with_fates(alloc, Vec::new(alloc))
    }

    /// A network on which the first letters that are sent have these fates, in their order; those after them arrive.
    pub fn with_fates(alloc: Global, fates: Vec<Fate>) -> Network
        ensures { result ≡ opened fates.items }
    {
        Network {
            letters: Vec::new(alloc),
            fates,
            turn: 0,
            failures: 0,
            alloc,
        }
    }

    /// How many letters are on their way.
    pub fn len(&self) -> usize
        ensures { result ≡ length self.now.flight.letters }
    {
        self.letters.len()
    }

    fn fail(&mut self) -> WireFault
        ensures { self.new ≡ failed_once self.old }
    {
        self.failures = self.failures.saturating_add(1);
        WireFault
    }

    fn launch(&mut self, it: Letter) -> Result<(), AllocError>
        requires { length it.bytes ≤ 65507 }
        ensures ok { OnOk result (self.new ≡ flying self.old it) }
        ensures err { OnErr result (self.new ≡ self.old) }
    {
        match self.fates.get(self.turn) {
            Some(fate) => {
                carry(&mut self.letters, self.alloc, *fate, it)?;
                self.turn += 1;
                Ok(())
            }
            None => Ok(self.letters.push(it)?),
        }
    }

    fn take(&mut self, address: &Address) -> Option<Letter>
        ensures { taken self.old address.now self.new result }
    {
        match place_of(&self.letters, address) {
            Some(place) => Some(self.letters.remove(place)),
            None => None,
        }
    }
}

impl Wire for Network {
    ghost went = { Goes };

    fn send(&mut self, local: &Address, to: &Address, bytes: &[u8]) -> Result<(), WireFault> {
        if bytes.len() > LONGEST {
            return Err(self.fail());
        }
        let Ok(it) = Letter::new(self.alloc, local, to, bytes) else {
            return Err(self.fail());
        };
        match self.launch(it) {
            Ok(()) => Ok(()),
            Err(_) => Err(self.fail()),
        }
    }

    fn recv(
        &mut self,
        local: &Address,
        buffer: &mut [u8],
    ) -> Result<Option<(usize, Address)>, WireFault>
        requires { 65507 ≤ length buffer.old }
        ensures within { IfOk result (λ read. IfSome read (λ datagram. datagram.0 ≤ length buffer.new)) }
        ensures event { (events : List Event) → Goes self.old events
            → Goes self.new (events ++ read_event local.now buffer.new result ∷ []) }
        ensures never_fails { IsOk result }
    {
        match self.take(local) {
            Some(it) => {
                let length = it.bytes.len();
                buffer[..length].copy_from_slice(it.bytes.as_slice());
                Ok(Some((length, it.from)))
            }
            None => Ok(None),
        }
    }

    fn turn_ended(&mut self)
        ensures same { self.new ≡ self.old }
        ensures kept { (events : List Event) → Goes self.old events → Goes self.new events }
    {}

    fn failures(&self) -> u64 {
        self.failures
    }
}
