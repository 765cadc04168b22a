ghost use Rattle.command_queue.specs.Facts.{Fits};
ghost use Rattle.command_queue.specs.Known.{IsKnown, facts_of};
ghost use Rattle.std.specs.Bool.{OnTrue};
ghost use Rattle.std.specs.Prelude.{◌≡◌, []};

use command_queue::{EVENTS, Known, Refused, Sender, Taker, a_lone_sender_fills_the_queue, make};
use std::alloc::Global;
use std::snapshot::Snapshot;
use std::sync::Wait;
use std::thread::{self, JoinHandle, Promise, Threads};

/// An event: who sent it, and as which of its events, counted from 0.
#[derive(Clone, Copy, Debug, PartialEq, Eq, Drop)]
struct Sent {
    by: u32,
    number: u32,
}

/// A sender, with what it knows of its queue.
#[derive(Drop)]
struct Sends {
    sender: Sender<Sent>,
    known: Known<Sent>,
    ghost ours: { IsKnown sender.queue known },
}

impl Sends {
    fn of(sender: Sender<Sent>) -> Sends
        ensures { result.sender.queue ≡ sender.queue }
    {
        let mut sender = sender;
        let known = sender.note();
        Sends { sender, known }
    }

    fn push(&mut self, rt: &impl Wait, event: Sent) -> Result<(), Refused<Sent>>
        ensures { self.new.sender.queue ≡ self.old.sender.queue }
    {
        self.sender.push(rt, &mut self.known, event)
    }

    fn len(&mut self, rt: &impl Wait) -> usize
        ensures { self.new.sender.queue ≡ self.old.sender.queue }
    {
        self.sender.len(rt, &mut self.known)
    }
}

/// A taker, with what it knows of its queue.
#[derive(Drop)]
struct Takes {
    taker: Taker<Sent>,
    known: Known<Sent>,
    ghost ours: { IsKnown taker.queue known },
}

impl Takes {
    fn of(taker: Taker<Sent>) -> Takes
        ensures { result.taker.queue ≡ taker.queue }
    {
        let mut taker = taker;
        let known = taker.note();
        Takes { taker, known }
    }

    fn pop(&mut self, rt: &impl Wait) -> Option<Sent>
        ensures { self.new.taker.queue ≡ self.old.taker.queue }
    {
        self.taker.pop(rt, &mut self.known)
    }
}

/// Whether 1,024 pushes into an untaken queue succeed, and the next one hands its event back.
fn fills(rt: &impl Wait, sender: &mut Sends) -> bool {
    let mut pushed = true;
    for number in 0..EVENTS as u32 {
        pushed &= sender.push(rt, Sent { by: 0, number }).is_ok();
    }
    let refused = Sent { by: 0, number: 9 };
    match sender.push(rt, refused) {
        Ok(()) => false,
        Err(Refused(back)) => pushed && back == refused,
    }
}

/// Whether the taker is given the events of the sender up to this number, in order, and then none.
fn empties(rt: &impl Wait, taker: &mut Takes, by: u32, count: u32) -> bool {
    let mut taken = true;
    for number in 0..count {
        taken &= taker.pop(rt) == Some(Sent { by, number });
    }
    taken && taker.pop(rt).is_none()
}

/// Whether a full queue takes no event, and one that is taken makes room for one.
fn is_full(rt: &impl Wait, sender: &mut Sends, taker: &mut Takes) -> bool {
    let empty = sender.len(rt) == 0;
    let filled = empty & taker.pop(rt).is_none() & fills(rt, sender) & (sender.len(rt) == EVENTS);
    let first = taker.pop(rt) == Some(Sent { by: 0, number: 0 }) && sender.len(rt) == EVENTS - 1;
    let one = Sent {
        by: 0,
        number: 1024,
    };
    let other = Sent {
        by: 0,
        number: 1025,
    };
    let pushed = sender.push(rt, one).is_ok() & sender.push(rt, other).is_err();
    filled & first & pushed & (taker.pop(rt) == Some(Sent { by: 0, number: 1 }))
}

/// Whether a queue is filled and emptied more than once.
fn goes_round(rt: &impl Wait, sender: &mut Sends, taker: &mut Takes) -> bool {
    let mut same = true;
    for _ in 0..3 {
        same &= fills(rt, sender) & empties(rt, taker, 0, EVENTS as u32);
    }
    same
}

/// Whether a queue with a lone sender is full, or goes round.
fn goes(rt: &impl Wait, senders: &mut Vec<Sender<Sent>>, taker: &mut Takes, round: bool) -> bool {
    match senders.pop() {
        Some(sender) => {
            let mut sender = Sends::of(sender);
            if round {
                goes_round(rt, &mut sender, taker)
            } else {
                is_full(rt, &mut sender, taker)
            }
        }
        None => false,
    }
}

/// Whether a new queue goes so; false without memory.
fn is_shown(rt: &impl Wait, alloc: Global, round: bool) -> bool {
    match make(alloc, 1) {
        Ok((mut senders, taker)) => goes(rt, &mut senders, &mut Takes::of(taker), round),
        Err(_) => false,
    }
}

#[test]
fn full_queue(rt: HostRuntime) {
    a_lone_sender_fills_the_queue::<Sent>();
    assert!(rt; is_shown(&rt, rt.alloc(), false) & is_shown(&rt, rt.alloc(), true));
}

/// Sends the event, again for as long as the queue is full.
fn send(rt: &impl Wait, sender: &mut Sends, event: Sent) {
    let mut event = event;
    for _ in rt.forever() {
        match sender.push(rt, event) {
            Ok(()) => return,
            Err(Refused(back)) => event = back,
        }
        thread::yield_now();
    }
}

/// Sends so many events by each of two senders, in turn.
fn send_both(rt: &impl Wait, mut pair: (Sends, Sends), by: u32, count: u32) {
    let second = by.wrapping_add(1);
    for number in 0..count {
        send(rt, &mut pair.0, Sent { by, number });
        send(rt, &mut pair.1, Sent { by: second, number });
    }
}

/// Takes so many events of each of four senders. Whether each sender's came in its order, each once, and then none.
fn take_all(rt: &impl Wait, taker: &mut Takes, count: u32) -> bool {
    let mut next = [0u32; 4];
    let mut left = count.wrapping_mul(4);
    let mut in_order = true;
    for _ in rt.forever() {
        if left == 0 {
            break;
        }
        let Some(Sent { by, number }) = taker.pop(rt) else {
            thread::yield_now();
            continue;
        };
        left = left.wrapping_sub(1);
        match next.get_mut(by as usize) {
            Some(due) => {
                in_order &= *due == number;
                *due = due.wrapping_add(1);
            }
            None => in_order = false,
        }
    }
    in_order && next == [count; 4] && taker.pop(rt).is_none()
}

/// The last two of these senders.
fn two(senders: &mut Vec<Sender<Sent>>) -> Option<(Sends, Sends)> {
    let second = senders.pop()?;
    let first = senders.pop()?;
    Some((Sends::of(first), Sends::of(second)))
}

/// How many events each of the four senders sends.
const COUNT: u32 = 100_000;

/// A thread in which the last two of these senders send. None where there is no such thread.
fn start<R: Threads + Wait + Copy + Send + 'static>(
    rt: &R,
    senders: &mut Vec<Sender<Sent>>,
    by: u32,
) -> Option<JoinHandle<()>> {
    let handle = *rt;
    let pair = two(senders)?;
    match thread::spawn(rt, move || send_both(&handle, pair, by, COUNT)) {
        Ok(thread) => Some(thread),
        Err(_) => None,
    }
}

/// Whether what four senders send in two threads comes in order.
fn four_send<R: Threads + Wait + Copy + Send + 'static>(
    rt: &R,
    senders: &mut Vec<Sender<Sent>>,
    taker: &mut Takes,
) -> bool {
    match (start(rt, senders, 2), start(rt, senders, 0)) {
        (Some(one), Some(other)) => {
            let in_order = take_all(rt, taker, COUNT);
            one.join(rt);
            other.join(rt);
            in_order
        }
        _ => false,
    }
}

fn is_in_order<R: Threads + Wait + Copy + Send + 'static>(rt: &R, alloc: Global) -> bool {
    match make(alloc, 4) {
        Ok((mut senders, taker)) => four_send(rt, &mut senders, &mut Takes::of(taker)),
        Err(_) => false,
    }
}

#[test]
fn four_senders_in_two_threads(rt: HostRuntime) {
    assert!(rt; is_in_order(&rt, rt.alloc()));
}

/// How many events the sender sends whose end the taker hears of.
const NOTED: u32 = 1000;

/// Sends so many events, which find room in a queue of their own, and ends.
fn send_and_end(rt: &impl Wait, sends: Sends) -> Known<Sent>
    ensures { IsKnown sends.sender.queue result }
{
    let mut sends = sends;
    for number in 0..NOTED {
        let _ = sends.push(rt, Sent { by: 0, number });
    }
    sends.sender.end()
}

/// That what a thread hands back is known of the queue of this sender.
#[derive(Drop)]
struct OfItsQueue(Snapshot<Sends>);

impl Promise<Known<Sent>> for OfItsQueue {
    ghost kept_by = { λ promise known. IsKnown promise.0.value.sender.queue known };
}

/// Whether these events are there, in order, and then none: then all that is known to have been sent was taken.
fn takes_rest(rt: &impl Wait, taker: &mut Taker<Sent>, known: &mut Known<Sent>) -> bool
    requires { IsKnown taker.old.queue known.old }
    ensures { OnTrue result (Fits taker.new.taken [] (facts_of known.old)) }
{
    let mut in_order = true;
    let mut next = 0u32;
    for _taken in 0..2000 {
        let Some(event) = taker.pop(rt, known) else {
            return in_order && next == NOTED;
        };
        in_order &= event
            == Sent {
                by: 0,
                number: next,
            };
        next = next.wrapping_add(1);
    }
    false
}

/// Whether the taker takes, once it has heard of it, all that another thread sent.
fn hears<R: Threads + Wait + Copy + Send + 'static>(
    rt: &R,
    sender: Sender<Sent>,
    taker: Taker<Sent>,
) -> bool
    requires { sender.queue ≡ taker.queue }
{
    let handle = *rt;
    let mut taker = taker;
    let sends = Sends::of(sender);
    let promise = OfItsQueue(Snapshot::of(&sends));
    match thread::spawn_with(rt, promise, move || send_and_end(&handle, sends)) {
        Ok(thread) => takes_rest(rt, &mut taker, &mut thread.join(rt)),
        Err(_) => false,
    }
}

fn is_heard<R: Threads + Wait + Copy + Send + 'static>(rt: &R, alloc: Global) -> bool {
    match make(alloc, 1) {
        Ok((mut senders, taker)) => match senders.pop() {
            Some(sender) => hears(rt, sender, taker),
            None => false,
        },
        Err(_) => false,
    }
}

#[test]
fn a_note_from_another_thread(rt: HostRuntime) {
    assert!(rt; is_heard(&rt, rt.alloc()));
}
