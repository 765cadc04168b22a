ghost use Rattle.command_queue.specs.Known.{IsKnown, Tells, facts_of};
ghost use Rattle.media_agents.specs.Turns.{HasRoom, IsAtLast, TakesAll, Turned};
ghost use Rattle.std.specs.Prelude.{◌≡◌, ◌≤◌, ◌++◌, ◌∷◌, [], List, MatchBool};

use command_queue::{Known, Taker};
use std::sync::Wait;

/// How many events a turn takes at most.
const MOST: u32 = 1024;

/// Whoever makes entries of events.
pub trait Conducts<E> {
    /// The events of the entries so far.
    ghost history: { Self → List E };

    /// From the one to the other an entry was made of the event, and all that follows it was done.
    ghost does: { Self → E → Self → Type 0 };

    /// From the one to the other no entry was made of the event, since there was no memory, and nothing of it is left.
    ghost misses: { Self → E → Self → Type 0 };

    /// Whether the history is at the last number: then no entry comes any more.
    fn is_full(&self) -> bool
        ensures { MatchBool result (IsAtLast (history self.now)) (HasRoom (history self.now)) };

    /// Makes an entry of an event, and says whether it did: not where it was refused memory. What follows it is done then.
    fn conduct<R: Wait>(&mut self, rt: &R, event: E) -> bool
        requires { HasRoom (history self.old) }
        ensures history { MatchBool result (history self.new ≡ history self.old ++ event ∷ []) (history self.new ≡ history self.old) }
        ensures did { MatchBool result (does self.old event self.new) (misses self.old event self.new) };
}

/// Takes the events that are in the queue, for as long as the history has a number left. What is known of the queue decides
/// nothing: whatever it is, the answers fit it.
fn take_all<E: Drop, C: Conducts<E>, R: Wait>(
    rt: &R,
    taker: &mut Taker<E>,
    known: &mut Known<E>,
    conductor: &mut C,
) -> u32
    requires known { IsKnown taker.old.queue known.old }
    ensures known { Tells taker.old.queue (facts_of known.old) known.new }
    ensures all { TakesAll C.history C.does C.misses taker.old taker.new (facts_of known.old) conductor.old conductor.new result }
    ensures few { result ≤ 1024 }
{
    let mut misses = 0;
    for _taken in 0..MOST {
        if conductor.is_full() {
            return misses;
        }
        let Some(event) = taker.pop(rt, known) else {
            return misses;
        };
        if !conductor.conduct(rt, event) {
            misses += 1;
        }
    }
    misses
}

/// A turn: the events that are in the queue, and then the tick. Once the history is at its last number none of them is taken.
pub fn turn<E: Drop, C: Conducts<E>, R: Wait>(
    rt: &R,
    taker: &mut Taker<E>,
    known: &mut Known<E>,
    conductor: &mut C,
    tick: E,
) -> u32
    requires known { IsKnown taker.old.queue known.old }
    ensures known { Tells taker.old.queue (facts_of known.old) known.new }
    ensures turned { Turned C.history C.does C.misses taker.old taker.new (facts_of known.old) tick conductor.old conductor.new result }
{
    let misses = take_all(rt, taker, known, conductor);
    if conductor.is_full() {
        return misses;
    }
    if conductor.conduct(rt, tick) {
        misses
    } else {
        misses + 1
    }
}
