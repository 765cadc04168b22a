//! The conductor's turn.

ghost use Rattle.command_queue.specs.Facts.{were_taken};
ghost use Rattle.driver_core.specs.declared.state.event.Event.TheVariants.{Tick};
ghost use Rattle.media_agents.specs.Acts.{Each, GoesOn};
ghost use Rattle.media_agents.specs.Asking.{IsRowClosed};
ghost use Rattle.media_agents.specs.Turns.{Turned};
ghost use Rattle.media_agents.specs.Works.{Does, Misses, Taking, events_made};
ghost use Rattle.published_registry.specs.Histories.{registry_of};
ghost use Rattle.std.specs.Prelude.{◌≡◌};

use crate::desk::Desks;
use crate::gate::{Agent, Gate, Turn};
use crate::naming::DriverNaming;
use crate::noting::Noting;
use crate::slots::Logs;
use crate::turning::turn;
use crate::works::Works;
use command_queue::{Known, Taker};
use driver_core::{Event, Registry};
use std::marker::Model;
use std::sync::{Arc, Wait};

/// The conductor: it alone changes the registry. It takes events out of the queue, one after another, and makes an entry of
/// each.
pub struct Conductor<N: DriverNaming, L, D, T, G: Gate> {
    taker: Taker<Event>,
    /// What is known of the queue: whatever that is, its answers fit it. No turn changes it.
    known: Known<Event>,
    works: Works<N, L, D, T>,
    gate: Arc<G>,
    turn: Turn,
}

impl<N: DriverNaming, L, D, T, G: Gate> Model for Conductor<N, L, D, T, G> {
    ghost use Rattle.command_queue.specs.Known.{IsKnown, facts_of};
    ghost use Rattle.media_agents.specs.Works.{Conducting};

    ghost Value = { Conducting L D T };

    ghost view = { λ conductor. record { taker = conductor.taker; known = facts_of conductor.known; works = conductor.works } };

    ghost invariant = { λ conductor. IsKnown conductor.taker.queue conductor.known };
}

/// Whether there was something to do in a turn. Its tick is one entry: there are more, or an event was refused memory.
fn has_worked(misses: u32, before: u64, after: u64) -> bool {
    misses > 0 || after.saturating_sub(before) > 1
}

impl<
    N: DriverNaming,
    L: Logs<N> + Drop,
    D: Desks<N> + Drop,
    T: Noting + Drop,
    G: Gate + Drop,
> Conductor<N, L, D, T, G> {
    /// A conductor that takes the events of that queue. Of the queue it knows what was taken so far.
    pub fn new(
        taker: Taker<Event>,
        works: Works<N, L, D, T>,
        gate: Arc<G>,
    ) -> Conductor<N, L, D, T, G>
        ensures { result ≡ record { taker = taker; known = were_taken taker.taken; works = works } }
    {
        let mut taker = taker;
        let known = taker.note();
        Conductor {
            taker,
            known,
            works,
            gate,
            turn: Turn::first(),
        }
    }

    /// A turn at the moment `now` in nanoseconds: it takes events until the queue gives none or 1,024 were taken, and then
    /// time goes on. It answers how many of these were refused memory.
    pub fn turn<R: Wait>(&mut self, rt: &R, now: u64) -> u32
        ensures known { self.new.known ≡ self.old.known }
        ensures turned { Turned events_made (Taking (Does L.did D.told N.home T.wrote)) (Taking (Misses L.did D.told N.home)) self.old.taker self.new.taker self.old.known (Tick now) self.old.works self.new.works result }
    {
        self.gate.pass(Agent::Conductor, self.turn, &[]);
        let Conductor {
            taker,
            known,
            works,
            gate: _,
            turn: upcoming,
        } = self;
        let before = works.number();
        let misses = turn(rt, taker, known, works, Event::Tick { now });
        let worked = has_worked(misses, before, works.number());
        *upcoming = upcoming.next(worked, false);
        misses
    }

    /// Ends the driver and gives its last registry, and the way to its logs: nobody gets a look at the registry any more, and
    /// each of its logs closes.
    pub fn end<R: Wait>(self, rt: &R) -> (Registry, L)
        ensures registry { result.0 ≡ registry_of self.works.history }
        ensures closed { GoesOn (Each IsRowClosed result.0.streams.sources) (L.did self.works.logs) (L.did result.1) }
    {
        let Conductor {
            taker: _,
            known: _,
            works,
            gate: _,
            turn: _,
        } = self;
        works.end(rt)
    }
}
