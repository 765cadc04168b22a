ghost use Rattle.command_queue.specs.Facts.{AreTaken, Fits, were_taken};
ghost use Rattle.command_queue.specs.Known.{IsKnown, Tells, facts_of};
ghost use Rattle.command_queue.specs.Taken.{takes};
ghost use Rattle.std.specs.Prelude.{◌≡◌, ℕ, [], MatchOption};

use crate::known::Known;
use crate::rule::{Copies, Hears, Queue, QueuePass, Takes, TellsTaken};
use std::marker::Model;
use std::sync::{Arc, Wait};

/// The one taker of a queue. It may go to another thread.
#[derive(Drop)]
pub struct Taker<E> {
    pub(crate) queue: Arc<Queue<E>>,
    pub(crate) pass: QueuePass<E>,
}

impl<E> Model for Taker<E> {
    ghost use Rattle.std.specs.Prelude.{◌≡◌, true, false};
    ghost use Rattle.std.specs.Arc.{arc_value};
    ghost use Rattle.command_queue.specs.Taken.{Taken};
    ghost use Rattle.crossbeam_queue.specs.Passes.{IsPassOf};

    ghost Value = { Taken E };

    ghost view = { λ taker. record { queue = taker.pass.table_id; taken = taker.pass.me.0.client.taken } };

    ghost invariant = { λ taker. IsPassOf (arc_value taker.queue) taker.pass
        × (taker.pass.me.0.client.takes ≡ true) × (taker.pass.me.0.client.sends ≡ false) };
}

impl<E: Drop> Taker<E> {
    /// Takes the event at the front of the queue, which is the next one of its sender. `None` only where the queue held
    /// no event at one moment of the call, which fits what is known: all that a sender is known to have sent was taken
    /// then. It takes no memory.
    pub fn pop<R: Wait>(&mut self, rt: &R, known: &mut Known<E>) -> Option<E>
        requires known { IsKnown self.old.queue known.old }
        ensures known { Tells self.old.queue (facts_of known.old) known.new }
        ensures taken { MatchOption result ((self.new ≡ self.old) × Fits self.old.taken [] (facts_of known.old))
            (λ event. (number : ℕ) × (self.new ≡ takes self.old number event)) }
        ensures order { AreTaken self.new.taken (facts_of known.old) }
    {
        let told = self.queue.another::<Copies>(known);
        self.queue.absorb::<Hears>(&mut self.pass, told);
        let letter = self.queue.pop_as::<Takes, R>(rt, &mut self.pass)?;
        Some(letter.event)
    }

    /// What was taken so far, for whoever is to know of it.
    pub fn note(&mut self) -> Known<E>
        ensures same { self.new ≡ self.old }
        ensures known { Tells self.old.queue (were_taken self.old.taken) result }
    {
        self.queue.another::<TellsTaken>(&mut self.pass)
    }
}
