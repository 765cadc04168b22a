//! What a driver asks of its conductor.

ghost use Rattle.std.specs.Prelude.{◌≡◌, ◌++◌, ◌∷◌, []};

use driver_core::Event;
use media_agents::{Answered, Desk, DriverNaming, EventSender, Question};
use std::sync::{Mutex, Wait};
use std::thread;

/// Pushes an event, again until the queue takes it.
fn push<R: Wait>(rt: &R, queue: &mut EventSender, event: Event)
    ensures { queue.new ≡ record queue.old { sent = queue.old.sent ++ event ∷ [] } }
{
    let mut event = event;
    for _ in rt.forever() {
        match queue.push(rt, event) {
            Ok(()) => return,
            Err(refused) => event = refused.0,
        }
        thread::yield_now();
    }
    unreachable!()
}

/// Waits until the conductor answers that question. An answer to another one is let go.
fn wait_for_answer<N: DriverNaming, R: Wait>(
    rt: &R,
    desk: &Mutex<Desk<N>>,
    question: Question,
) -> Answered<N>
    ensures { result.question ≡ question }
{
    for _ in rt.forever() {
        if let Some(answered) = desk.lock(rt).take() {
            if answered.question() == question {
                return answered;
            }
        }
        thread::yield_now();
    }
    unreachable!()
}

/// Asks the conductor a question, once, as that event, and waits for its answer. A client that attaches by it gets that ring.
pub(crate) fn ask<N: DriverNaming, R: Wait>(
    rt: &R,
    desk: &Mutex<Desk<N>>,
    queue: &mut EventSender,
    ring: u16,
    question: Question,
    event: Event,
) -> Answered<N>
    ensures pushed { queue.new ≡ record queue.old { sent = queue.old.sent ++ event ∷ [] } }
    ensures question { result.question ≡ question }
{
    desk.lock(rt).ask(ring);
    push(rt, queue, event);
    wait_for_answer(rt, desk, question)
}
