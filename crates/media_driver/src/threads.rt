//! A driver's threads begin, and end.

use crate::faults::StartFault;
use crate::works::{Turns, Work};
use media_agents::{Clock, EventSender};
use std::sync::atomic::{AtomicBool, Ordering};
use std::sync::{Arc, Wait};
use std::thread;
use std::thread::{JoinHandle, Threads};

/// The threads of a driver.
#[derive(Drop)]
pub(crate) struct Running {
    conductor: JoinHandle<()>,
    sender: JoinHandle<()>,
    receiver: JoinHandle<()>,
}

/// Begins the three threads. Where one can't be made, those that began end before this returns.
pub(crate) fn begin<
    R: Threads + Wait + Copy + Drop + Send + Sync + 'static,
    K: Turns + Drop + Send + 'static,
    S: Turns + Drop + Send + 'static,
    V: Turns + Drop + Send + 'static,
    C: Clock + Drop + Send + 'static,
>(
    rt: R,
    stop: &AtomicBool,
    conductor: Work<K, C>,
    sender: Work<S, C>,
    receiver: Work<V, C>,
) -> Result<Running, StartFault> {
    let Ok(conductor) = thread::spawn(&rt, move || conductor.run(&rt)) else {
        return Err(StartFault::NoThread);
    };
    let Ok(sender) = thread::spawn(&rt, move || sender.run(&rt)) else {
        stop.store(true, Ordering::SeqCst);
        conductor.join(&rt);
        return Err(StartFault::NoThread);
    };
    let Ok(receiver) = thread::spawn(&rt, move || receiver.run(&rt)) else {
        stop.store(true, Ordering::SeqCst);
        conductor.join(&rt);
        sender.join(&rt);
        return Err(StartFault::NoThread);
    };
    Ok(Running {
        conductor,
        sender,
        receiver,
    })
}

impl Running {
    /// The threads end. The two that may sleep for long are woken.
    pub(crate) fn end<R: Threads>(self, rt: &R, stop: &AtomicBool, queue: &EventSender) {
        let Running {
            conductor,
            sender,
            receiver,
        } = self;
        stop.store(true, Ordering::SeqCst);
        queue.wake_sender();
        queue.wake_receiver();
        conductor.join(rt);
        sender.join(rt);
        receiver.join(rt);
    }
}
