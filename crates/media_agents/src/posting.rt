//! Who pushes events into a driver's queue.

ghost use Rattle.command_queue.specs.declared.known.Facts.{Facts};
ghost use Rattle.command_queue.specs.Facts.{DidHold, WasFull};
ghost use Rattle.driver_core.specs.declared.state.event.Event.{Event as Happening};
ghost use Rattle.std.specs.Prelude.{◌≡◌, ◌≤◌, ◌++◌, ◌∷◌, [], MatchResult, OnErr};

use crate::gate::Bells;
use command_queue::{Known, Refused, Sender};
use driver_core::Event;
use std::marker::Model;
use std::sync::{Arc, Wait};

/// A sender of events, with what is known of their queue: whatever that is, the queue's answers fit it. It may go to another
/// thread.
#[derive(Drop)]
pub struct EventSender {
    sender: Sender<Event>,
    known: Known<Event>,
    /// They wake the agents that sleep.
    bells: Arc<Bells>,
}

impl Model for EventSender {
    ghost use Rattle.command_queue.specs.Known.{IsKnown};
    ghost use Rattle.command_queue.specs.Sent.{Sent};
    ghost use Rattle.driver_core.specs.declared.state.event.Event.{Event as Happening};

    ghost Value = { Sent Happening };

    ghost view = { λ post. post.sender };

    ghost invariant = { λ post. IsKnown post.sender.queue post.known };
}

impl EventSender {
    /// Events go by this sender of the queue, whose conductor is woken by one of those bells.
    pub fn new(sender: Sender<Event>, bells: Arc<Bells>) -> EventSender
        ensures { result ≡ sender }
    {
        let mut sender = sender;
        let known = sender.note();
        EventSender {
            sender,
            known,
            bells,
        }
    }

    /// A log over datagrams took a message: the sender is woken where it sleeps.
    pub fn wake_sender(&self) {
        self.bells.sender.ring();
    }

    /// Messages of an image were taken: the receiver is woken where it sleeps.
    pub fn wake_receiver(&self) {
        self.bells.receiver.ring();
    }

    /// Puts an event at the back of the queue, and wakes the conductor where it sleeps. `Refused` hands the event back, only where
    /// the queue held 1,024 events at one moment of the call; nothing was sent then. It takes no memory.
    pub fn push<R: Wait>(&mut self, rt: &R, event: Event) -> Result<(), Refused<Event>>
        ensures sent { MatchResult result (λ _. self.new ≡ record self.old { sent = self.old.sent ++ event ∷ [] })
            (λ refused. (refused.0 ≡ event) × (self.new ≡ self.old)) }
        ensures full { OnErr result ((facts : Facts Happening) × WasFull self.old.total self.old.number self.old.sent facts) }
    {
        let EventSender {
            sender,
            known,
            bells,
        } = self;
        let pushed = sender.push(rt, known, event);
        bells.conductor.unpark();
        pushed
    }

    /// How many events the queue held at one moment of the call. Others may push and take before it returns. It takes no memory.
    pub(crate) fn len<R: Wait>(&mut self, rt: &R) -> usize
        ensures same { self.new ≡ self.old }
        ensures few { result ≤ 1024 }
        ensures held { (facts : Facts Happening) × DidHold result self.old.total self.old.number self.old.sent facts }
    {
        let EventSender {
            sender,
            known,
            bells: _,
        } = self;
        sender.len(rt, known)
    }
}
