//! What a driver that runs takes of the machine, and how it waits.

use std::io::StdinLock;
use std::net::{Net, TcpListener, TcpStream};
use std::rt::Files;
use std::sync::Wait;
use std::thread;
use std::thread::{Parker, Threads};
use std::time::{Clock, CpuClock, Duration};

/// A second, in nanoseconds.
pub const SECOND: u64 = 1_000_000_000;

/// How often a wait yields to other threads before it sleeps.
const YIELDS: u32 = 500;

/// How often it sleeps shortly then, before it sleeps longer.
const NAPS: u32 = 1_000;

/// How long it sleeps shortly, in microseconds.
const NAP: u64 = 100;

/// How long it sleeps in the end, in microseconds.
const SLEEP: u64 = 1_000;

/// How long a wait sleeps that something ends, in microseconds: what is due by time is no later than that.
const LONGEST: u64 = 10_000;

/// What the program takes of the machine for a driver: its standard streams, memory and clock, threads and sockets. It is
/// handed on to threads, so the types that it gives are named.
pub trait Machine: Input<Reader = StdinLock<'static>>
    + Print
    + Eprint
    + AllocGlobal
    + Clock
    + CpuClock
    + Net<Listener = TcpListener, Stream = TcpStream>
    + Threads
    + Wait
    + Copy
    + Drop
    + Send
    + Sync
    + 'static {}

impl<
    R: Input<Reader = StdinLock<'static>>
        + Print
        + Eprint
        + AllocGlobal
        + Clock
        + CpuClock
        + Net<Listener = TcpListener, Stream = TcpStream>
        + Threads
        + Wait
        + Copy
        + Drop
        + Send
        + Sync
        + 'static,
> Machine for R {}

/// What the machine's steady clock stands at, in nanoseconds from any beginning: by it the program measures how long something
/// takes. 0 where it can't be read.
pub fn ticks<C: Clock>(clock: &C) -> u64 {
    match clock.monotonic() {
        Ok(since) => since.as_nanos().min(u64::MAX as u128) as u64,
        Err(_) => 0,
    }
}

/// What the program takes of the machine for files, and for sockets that are files. Beside the first thread the one has it that
/// reads a policy again.
pub trait Disk: Files + Net + AllocGlobal + Copy + Drop + Send + Sync + 'static {}

impl<F: Files + Net + AllocGlobal + Copy + Drop + Send + Sync + 'static> Disk for F {}

/// A line on standard error, which may be closed.
pub fn report<R: Eprint>(rt: &R, line: &str) {
    let _ = rt.eprintln(line);
}

/// A wait goes on: other threads may run. `waited` counts the pauses of this wait.
pub fn pause<R: Clock>(rt: &R, waited: u32) {
    if waited < YIELDS {
        thread::yield_now();
    } else if waited < YIELDS + NAPS {
        thread::sleep(rt, Duration::from_micros(NAP));
    } else {
        thread::sleep(rt, Duration::from_micros(SLEEP));
    }
}

/// A wait goes on until something rings: other threads may run. `waited` counts the pauses of this wait. It may return early,
/// and does after ten milliseconds.
pub fn pause_until<R: Wait>(rt: &R, bell: &Parker, waited: u32) {
    if waited < YIELDS {
        thread::yield_now();
    } else {
        bell.park_timeout(rt, Duration::from_micros(LONGEST));
    }
}
