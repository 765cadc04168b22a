ghost use Rattle.command_queue.specs.Sent.{new_senders, new_sender};
ghost use Rattle.command_queue.specs.Taken.{new_taker};
ghost use Rattle.command_queue.specs.Views.{taking, hiring};
ghost use Rattle.crossbeam_queue.specs.Passes.{IsPassOf, IsSamePass, ruled_capacity, view};
ghost use Rattle.std.specs.Arc.{arc_value};
ghost use Rattle.std.specs.Prelude.{◌≡◌, ◌<◌, [], IfOk, OnOk};

use crate::EVENTS;
use crate::rule::{Counts, Hires, Queue, QueuePass};
use crate::sender::Sender;
use crate::taker::Taker;
use std::alloc::{AllocError, Global};
use std::sync::Arc;

// An empty queue, for so many senders.
fn counted<E: Drop>(alloc: Global, passes: usize) -> Result<(Queue<E>, QueuePass<E>), AllocError>
    ensures { IfOk result (λ made. IsPassOf made.0 made.1 × (ruled_capacity made.0 ≡ 1024) × (view made.1 ≡ taking passes 0)) }
{
    let (queue, mut pass) = Queue::ruled(alloc, EVENTS)?;
    for _made in 0..passes {
        let _ = queue.another::<Counts>(&mut pass);
    }
    Ok((queue, pass))
}

// The next sender.
fn hired<E: Drop>(
    queue: &Arc<Queue<E>>,
    pass: &mut QueuePass<E>,
    number: u64,
) -> Result<Sender<E>, AllocError>
    requires queue { IsPassOf (arc_value queue.now) pass.old × (ruled_capacity (arc_value queue.now) ≡ 1024) }
    requires role { view pass.old ≡ taking (view pass.old).total number }
    requires few { number < (view pass.old).total }
    ensures queue { IsSamePass pass.old pass.new }
    ensures role { OnOk result (view pass.new ≡ hiring (view pass.old)) }
    ensures value { IfOk result (λ sender. sender ≡ new_sender pass.old.table_id (view pass.old).total number) }
{
    let queue = Arc::try_clone(queue)?;
    let pass = queue.another::<Hires>(pass);
    Ok(Sender {
        queue,
        pass,
        number,
    })
}

/// The senders of a new queue, in the order of their numbers, and its taker. `AllocError` where there is no memory.
pub fn make<E: Drop>(alloc: Global, passes: usize) -> Result<(Vec<Sender<E>>, Taker<E>), AllocError>
    requires { 0 < passes }
    ensures senders { IfOk result (λ made. made.0.items ≡ new_senders made.1.queue passes passes) }
    ensures taker { IfOk result (λ made. made.1 ≡ new_taker made.1.queue) }
{
    let (queue, mut pass) = counted(alloc, passes)?;
    let queue = Arc::new(alloc, queue)?;
    let mut senders = Vec::with_capacity(alloc, passes)?;
    for number in 0..passes {
        senders.push(hired(&queue, &mut pass, number as u64)?)?;
    }
    Ok((senders, Taker { queue, pass }))
}
