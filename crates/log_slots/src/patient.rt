//! Taking a lock that is held for a short while only.

use std::sync::atomic::{AtomicU64, Ordering};
use std::sync::{Mutex, MutexGuard, Wait};

/// How often a lock is tried before the thread sleeps.
const TRIES: u32 = 64;

/// How many steps the rest after the first try has. Each further one has twice as many.
const SHORTEST: u32 = 8;

/// How many steps a rest has at most.
const LONGEST: u32 = 256;

/// Rests for so many steps, each of some 8 nanoseconds, and leaves the processor to no other thread. A step is one on an atomic
/// that no other thread sees: it takes its time, and no line of memory is asked of another processor.
pub fn rest(steps: u32) {
    let own = AtomicU64::new(0);
    for _ in 0..steps {
        own.fetch_add(1, Ordering::SeqCst);
    }
}

/// Takes a lock. It is tried for a tenth of a millisecond or so, with longer and longer rests between, and only then the thread
/// sleeps until the lock is free: a thread that sleeps is woken by a call of the system, which takes longer than a step on a log.
pub fn lock_soon<'a, T, R: Wait>(rt: &R, lock: &'a Mutex<T>) -> MutexGuard<'a, T> {
    let mut steps = SHORTEST;
    for _ in 0..TRIES {
        if let Some(guard) = lock.try_lock() {
            return guard;
        }
        rest(steps);
        steps = steps.saturating_add(steps).min(LONGEST);
    }
    lock.lock(rt)
}
