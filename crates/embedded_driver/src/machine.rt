//! What a driver takes of the machine.

use std::sync::Wait;
use std::thread::Threads;
use std::time::Clock;

/// What the program takes of the machine, for its driver and for itself. It is handed on to threads.
pub(crate) trait Machine: Print
    + AllocGlobal
    + Clock
    + Threads
    + Wait
    + Copy
    + Drop
    + Send
    + Sync
    + 'static {}

impl<R: Print + AllocGlobal + Clock + Threads + Wait + Copy + Drop + Send + Sync + 'static> Machine
    for R {}
