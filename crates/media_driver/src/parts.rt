//! What a driver is made of, before it starts.

ghost use Rattle.driver_core.specs.Soundness.{AreSettings};
ghost use Rattle.driver_core.specs.State.{opened};
ghost use Rattle.media_driver.specs.Parts.{AreFresh};
ghost use Rattle.published_registry.specs.Histories.{registry_of};
ghost use Rattle.std.specs.Prelude.{◌≡◌, ◌+◌, ◌<◌, ◌≤◌, [], All, IfOk, length};

use crate::faults::MakeFault;
use crate::starting::shared;
use command_queue::{Sender, Taker};
use driver_core::{Event, Peer, Registry, Settings};
use log_arena::Arena;
use media_agents::{Bells, DriverNaming, EventSender};
use policy_core::Policy;
use published_registry::{Pass, Publisher};
use std::alloc::{AllocError, Global};
use std::marker::Model;
use std::sync::ledger::Blank;
use std::sync::{Arc, Wait};

/// How many clients may be out at once.
pub(crate) const CLIENTS: u32 = 64;

/// How many logs of publications there are at most.
pub(crate) const PUBLICATIONS: u32 = 256;

/// How many images there are at most.
pub(crate) const IMAGES: u32 = 512;

/// What a driver is made of: the region of its logs, its registry with a pass for each agent that looks and each client, the
/// queue of commands, and the ledgers of messages and of clients. It can't be let go: [`Driver::start`](crate::Driver::start) or
/// [`Parts::end`] ends it.
pub struct Parts {
    pub(crate) publisher: Publisher,
    pub(crate) pieces: Pieces,
}

/// What can be let go of it.
#[derive(Drop)]
pub(crate) struct Pieces {
    pub(crate) settings: Settings,
    pub(crate) store: Store,
    pub(crate) hands: Hands,
    pub(crate) blanks: Blanks,
    /// They wake the agents that sleep.
    pub(crate) bells: Arc<Bells>,
}

/// What the conductor alone works with.
#[derive(Drop)]
pub(crate) struct Store {
    pub(crate) arena: Arena,
    pub(crate) taker: Taker<Event>,
}

/// By what the others reach the conductor and its registry: a pass for the sender, the receiver and each client; and an end of
/// the queue for the driver's owner, the receiver and each client.
#[derive(Drop)]
pub(crate) struct Hands {
    pub(crate) passes: Vec<Pass>,
    pub(crate) senders: Vec<EventSender>,
}

/// The ledgers, before they are opened.
#[derive(Drop)]
pub(crate) struct Blanks {
    /// Of messages: a part for each slot and each client, and one for the driver, which keeps what clients counted that came back.
    pub(crate) messages: Blank,
    /// Of clients: a part for each, and one for the driver.
    pub(crate) clients: Blank,
}

impl Model for Parts {
    ghost use Rattle.driver_core.specs.Soundness.{IsSound};
    ghost use Rattle.media_driver.specs.Parts.{AreFresh, PartsState};
    ghost use Rattle.published_registry.specs.Histories.{registry_of};
    ghost use Rattle.std.specs.Prelude.{◌≡◌, length};

    ghost Value = { PartsState };

    ghost view = { λ parts. record {
      home = parts.pieces.store.arena.home;
      ledger = parts.pieces.blanks.messages.name;
      parts = parts.pieces.blanks.messages.parts;
      client_ledger = parts.pieces.blanks.clients.name;
      client_parts = parts.pieces.blanks.clients.parts;
      book = parts.publisher.book;
      opening = registry_of parts.publisher;
    } };

    ghost invariant = { λ parts. IsSound (registry_of parts.publisher)
        × AreFresh parts.publisher.book parts.pieces.hands.passes.items parts.pieces.hands.senders.items
        × (length parts.pieces.hands.passes.items ≡ 66) × (length parts.pieces.hands.senders.items ≡ 66)
        × (parts.pieces.blanks.messages.parts ≡ 321) × (parts.pieces.blanks.clients.parts ≡ 65) };
}

impl Hands {
    /// A pass that was not given yet.
    pub(crate) fn pass<N: DriverNaming>(&mut self) -> Pass
        requires fresh { AreFresh N.book self.old.passes.items self.old.senders.items }
        requires passes { 0 < length self.old.passes.items }
        ensures ours { result.book ≡ N.book }
        ensures fresh { AreFresh N.book self.new.passes.items self.new.senders.items }
        ensures passes { length self.new.passes.items + 1 ≡ length self.old.passes.items }
        ensures senders { self.new.senders ≡ self.old.senders }
    {
        match self.passes.pop() {
            Some(pass) => pass,
            None => unreachable!(),
        }
    }

    /// An end of the queue that was not given yet.
    pub(crate) fn sender<N: DriverNaming>(&mut self) -> EventSender
        requires fresh { AreFresh N.book self.old.passes.items self.old.senders.items }
        requires senders { 0 < length self.old.senders.items }
        ensures unsent { result.sent ≡ [] }
        ensures fresh { AreFresh N.book self.new.passes.items self.new.senders.items }
        ensures senders { length self.new.senders.items + 1 ≡ length self.old.senders.items }
        ensures passes { self.new.passes ≡ self.old.passes }
    {
        match self.senders.pop() {
            Some(sender) => sender,
            None => unreachable!(),
        }
    }
}

/// Who sends events by these, each with the bells of the agents.
fn with_bells(
    alloc: Global,
    bells: &Arc<Bells>,
    senders: Vec<Sender<Event>>,
) -> Result<Vec<EventSender>, AllocError>
    requires unsent { All (λ sender. sender.sent ≡ []) senders.items }
    requires senders { length senders.items ≡ 66 }
    ensures unsent { IfOk result (λ made. All (λ sender. sender.sent ≡ []) made.items) }
    ensures senders { IfOk result (λ made. length made.items ≡ 66) }
{
    let mut senders = senders;
    let mut made = Vec::with_capacity(alloc, CLIENTS as usize + 2)?;
    for _given in 0..CLIENTS + 2 {
        match senders.pop() {
            Some(sender) => made.push(EventSender::new(sender, Arc::try_clone(bells)?))?,
            None => unreachable!(),
        }
    }
    Ok(made)
}

/// The region for the logs, and the queue.
fn make_store(alloc: Global, settings: Settings) -> Result<(Store, Vec<Sender<Event>>), AllocError>
    requires { AreSettings settings }
    ensures unsent { IfOk result (λ made. All (λ sender. sender.sent ≡ []) made.1.items) }
    ensures senders { IfOk result (λ made. length made.1.items ≡ 66) }
{
    let arena = Arena::new(alloc, settings.arena_pages as usize)?;
    let (senders, taker) = command_queue::make(alloc, CLIENTS as usize + 2)?;
    Ok((Store { arena, taker }, senders))
}

impl Parts {
    /// Takes the memory of a driver under a policy, which gets the number 1.
    ///
    /// # Errors
    /// `NoMemory`, or `NoPass` where the published registry gives no place for a reader.
    pub fn make<R: Wait>(
        rt: &R,
        alloc: Global,
        settings: Settings,
        policy: Policy,
        peers: &[Peer],
    ) -> Result<Parts, MakeFault>
        requires { AreSettings settings }
        ensures opening { IfOk result (λ parts. parts.opening ≡ opened settings policy peers.now) }
        ensures parts { IfOk result (λ parts. (parts.parts ≡ 321) × (parts.client_parts ≡ 65)) }
    {
        let registry = Registry::new(alloc, settings, policy, peers)?;
        let (store, senders) = make_store(alloc, settings)?;
        let bells = shared(alloc, Bells::new())?;
        let senders = with_bells(alloc, &bells, senders)?;
        match published_registry::make(rt, alloc, registry, CLIENTS + 2) {
            Ok((publisher, passes)) => Ok(Parts {
                publisher,
                pieces: Pieces {
                    settings,
                    store,
                    hands: Hands { passes, senders },
                    bells,
                    blanks: Blanks {
                        messages: Blank::new(CLIENTS as u64 + 1 + PUBLICATIONS as u64),
                        clients: Blank::new(CLIENTS as u64 + 1),
                    },
                },
            }),
            Err(published_registry::MakeFault::NoMemory) => Err(MakeFault::NoMemory),
            Err(published_registry::MakeFault::NoPass) => Err(MakeFault::NoPass),
        }
    }

    /// What wakes the agents, for the gate of a driver that is made of these parts.
    pub fn bells(&self) -> Result<Arc<Bells>, AllocError> {
        Arc::try_clone(&self.pieces.bells)
    }

    /// Lets the parts go without a driver, and gives the registry that was opened.
    pub fn end<R: Wait>(self, rt: &R) -> Registry
        ensures { result ≡ self.opening }
    {
        let Parts {
            publisher,
            pieces: _,
        } = self;
        publisher.end(rt)
    }
}
