//! What a driver that serves decided, as an operator sees it.

use crate::fault::RemoteFault;
use crate::looking::print_line;
use crate::remote::Remote;
use program_parts::{Disk, Machine};
use service_records::{Answer, Request};
use std::thread;
use std::time::Duration;

/// After how long a driver that told all is asked again, in milliseconds.
const PAUSE: u64 = 200;

/// How many records an answer has at least that does not tell all.
const MANY: u32 = 256;

/// What an operator wants to see of what a driver decided.
#[derive(Clone, Copy, Debug)]
pub struct Watched {
    /// Denials alone.
    pub denied: bool,
    /// Each as JSON.
    pub json: bool,
    /// Also what is decided from now on.
    pub follow: bool,
}

impl Watched {
    /// What a request says of it.
    fn choice(&self) -> u32 {
        u32::from(self.denied) + 2 * u32::from(self.json)
    }
}

/// What was decided from a number on is printed: the number from which on later ones are asked for, and whether some are there.
fn print_from<R: Print, F: Disk>(
    rt: &R,
    files: &F,
    path: &str,
    from: u64,
    choice: u32,
) -> Result<(u64, bool), RemoteFault> {
    let mut remote = Remote::open(files, path)?;
    remote.ask(Request::Decisions { from, choice }, &[])?;
    remote.flush()?;
    let mut next = from;
    for _ in 0..u64::MAX {
        match remote.answer()? {
            Answer::Value { value } => next = value.max(0) as u64,
            Answer::Line => print_line(rt, remote.alloc, remote.tail())?,
            Answer::Done { count } => return Ok((next, count >= MANY)),
            Answer::Refused { .. } => return Err(remote.refusal()),
            _ => return Err(RemoteFault::Protocol),
        }
    }
    Ok((next, false))
}

/// What a driver decided is printed: what it keeps of it, or, where it is followed, from then on all of it until the driver ends.
pub fn watch_decisions<R: Machine, F: Disk>(
    rt: &R,
    files: &F,
    path: &str,
    watched: Watched,
) -> Result<(), RemoteFault> {
    let choice = watched.choice();
    let mut from = 0;
    for _ in rt.forever() {
        let (next, is_more) = print_from(rt, files, path, from, choice)?;
        from = next;
        if is_more {
            continue;
        }
        if !watched.follow {
            return Ok(());
        }
        thread::sleep(rt, Duration::from_millis(PAUSE));
    }
    unreachable!()
}
