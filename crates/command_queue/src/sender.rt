ghost use Rattle.command_queue.specs.Facts.{DidHold, WasFull, at_least, in_all};
ghost use Rattle.command_queue.specs.Known.{IsKnown, Tells, facts_of};
ghost use Rattle.std.specs.Prelude.{◌≡◌, ◌≤◌, ◌++◌, ◌∷◌, [], MatchResult, OnErr};

use crate::known::Known;
use crate::letter::{Letter, Refused};
use crate::rule::{Copies, Ends, Hears, Queue, QueuePass, Sends, TellsSent};
use std::marker::Model;
use std::sync::{Arc, Wait};

/// One of the senders of a queue. It may go to another thread.
#[derive(Drop)]
pub struct Sender<E> {
    pub(crate) queue: Arc<Queue<E>>,
    pub(crate) pass: QueuePass<E>,
    pub(crate) number: u64,
}

impl<E> Model for Sender<E> {
    ghost use Rattle.std.specs.Prelude.{◌≡◌, true};
    ghost use Rattle.std.specs.Arc.{arc_value};
    ghost use Rattle.command_queue.specs.Sent.{Sent};
    ghost use Rattle.crossbeam_queue.specs.Passes.{IsPassOf, ruled_capacity};

    ghost Value = { Sent E };

    ghost view = { λ sender. record { queue = sender.pass.table_id; total = sender.pass.me.0.client.total; number = sender.number; sent = sender.pass.me.0.client.sent } };

    ghost invariant = { λ sender. IsPassOf (arc_value sender.queue) sender.pass × (ruled_capacity (arc_value sender.queue) ≡ 1024)
        × (sender.pass.me.0.client.sends ≡ true) × (sender.pass.me.0.client.number ≡ sender.number) };
}

impl<E: Drop> Sender<E> {
    /// Puts an event at the back of the queue. `Refused` hands it back, only where the queue held 1,024 events at one
    /// moment of the call, which fits what is known; nothing was sent then. It takes no memory.
    pub fn push<R: Wait>(
        &mut self,
        rt: &R,
        known: &mut Known<E>,
        event: E,
    ) -> Result<(), Refused<E>>
        requires known { IsKnown self.old.queue known.old }
        ensures known { Tells self.old.queue (facts_of known.old) known.new }
        ensures sent { MatchResult result (λ _. self.new ≡ record self.old { sent = self.old.sent ++ event ∷ [] })
            (λ refused. (refused.0 ≡ event) × (self.new ≡ self.old)) }
        ensures full { OnErr result (WasFull self.old.total self.old.number self.old.sent (facts_of known.old)) }
    {
        let told = self.queue.another::<Copies>(known);
        self.queue.absorb::<Hears>(&mut self.pass, told);
        let letter = Letter {
            from: self.number,
            event,
        };
        match self.queue.push_as::<Sends, R>(rt, &mut self.pass, letter) {
            Ok(()) => Ok(()),
            Err(back) => Err(Refused(back.event)),
        }
    }

    /// How many events the queue held at one moment of the call, which fits what is known. Others may push and take before it
    /// returns. It takes no memory.
    pub fn len<R: Wait>(&mut self, rt: &R, known: &mut Known<E>) -> usize
        requires known { IsKnown self.old.queue known.old }
        ensures known { Tells self.old.queue (facts_of known.old) known.new }
        ensures same { self.new ≡ self.old }
        ensures few { result ≤ 1024 }
        ensures held { DidHold result self.old.total self.old.number self.old.sent (facts_of known.old) }
    {
        let told = self.queue.another::<Copies>(known);
        self.queue.absorb::<Hears>(&mut self.pass, told);
        self.queue.len_as::<Sends, R>(rt, &mut self.pass)
    }

    /// What this sender sent so far, for whoever is to know of it.
    pub fn note(&mut self) -> Known<E>
        ensures same { self.new ≡ self.old }
        ensures known { Tells self.old.queue (at_least self.old.number self.old.sent) result }
    {
        self.queue.another::<TellsSent>(&mut self.pass)
    }

    /// Ends this sender. What it sent in all.
    pub fn end(self) -> Known<E>
        ensures { Tells self.queue (in_all self.number self.sent) result }
    {
        let Self {
            queue,
            mut pass,
            number: _,
        } = self;
        queue.another::<Ends>(&mut pass)
    }
}
