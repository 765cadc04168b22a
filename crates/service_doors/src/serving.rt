//! How a driver is to serve, and what it serves with.

ghost use Rattle.service_doors.specs.Serving.{bounds_for, each_for};
ghost use Rattle.std.specs.Prelude.{◌≡◌};

use crate::bells::Bells;
use crate::guests::CLIENTS;
use crate::share::{Share, Usual};
use driver_service::Reason;
use program_parts::Machine;
use service_bounds::Bounds;
use std::os::unix::net::UnixStream;
use std::sync::Arc;
use std::thread::JoinHandle;

/// What a driver has room for: publications, subscriptions and counters.
const PUBLICATIONS: u64 = 256;

const SUBSCRIPTIONS: u64 = 512;

const COUNTERS: u64 = 1_024;

/// How many commands wait in its queue at most.
const COMMANDS: u64 = 1_024;

/// The bounds that were asked for.
#[derive(Clone, Copy, Debug, PartialEq, Eq)]
pub struct AskedBounds {
    /// How many clients a principal may have at once.
    pub each: Option<u64>,
    pub publications: Option<u64>,
    pub pages: Option<u64>,
    pub subscriptions: Option<u64>,
    pub counters: Option<u64>,
}

impl AskedBounds {
    /// How many clients each of so many doors may have at once: an equal part of all, and one at least, where nothing else was
    /// asked.
    pub fn each(&self, doors: u64) -> u64
        ensures { result ≡ each_for self.now doors }
    {
        let part = CLIENTS as u64 / doors.max(1);
        self.each.unwrap_or(part.max(1))
    }

    /// What each of so many doors may have: an equal part of all where nothing else was asked. All logs share so many pages.
    pub fn bounds(&self, pages: u64, doors: u64) -> Bounds
        ensures { result ≡ bounds_for self.now pages doors }
    {
        let doors = doors.max(1);
        Bounds {
            publications: self.publications.unwrap_or(PUBLICATIONS / doors),
            pages: self.pages.unwrap_or(pages / doors),
            subscriptions: self.subscriptions.unwrap_or(SUBSCRIPTIONS / doors),
            counters: self.counters.unwrap_or(COUNTERS / doors),
            commands: (COMMANDS / doors).max(1),
        }
    }
}

/// How a driver is to serve.
#[derive(Clone, Copy, Debug, PartialEq, Eq)]
pub struct Serving {
    /// How many clients a principal may have at once.
    pub each: u64,
    /// How much these may have.
    pub bounds: Bounds,
    pub usual: Usual,
    /// How long the driver lets a client be silent, in nanoseconds.
    pub liveness: u64,
    /// After how long the policy's file is read again, in nanoseconds, if it is.
    pub reload_every: Option<u64>,
}

/// Someone who came in by the door of a principal.
#[derive(Drop)]
pub struct Entering<R: Machine> {
    pub stream: UnixStream,
    pub principal: u32,
    pub share: Share<R>,
    pub bells: Arc<Bells>,
}

/// A connection that has its client and its thread.
#[derive(Drop)]
pub struct Begun {
    /// The client's id.
    pub number: u64,
    pub thread: JoinHandle<()>,
}

/// A client that came back from its connection.
#[derive(Clone, Copy, Debug, PartialEq, Eq)]
pub struct Returned {
    pub number: u64,
    /// Whether the driver was ended.
    pub ended: bool,
}

/// What was decided from a number on.
#[derive(Drop)]
pub struct Decided {
    /// A line for each decision.
    pub lines: String,
    /// The number from which on later ones are asked for.
    pub next: u64,
}

/// What came of reading the policy's file again.
#[derive(Drop)]
pub enum Reloaded {
    /// It has not changed.
    Same,
    /// It is in force: what there is to say of that, in lines.
    InForce(String),
    /// It is refused, for that reason.
    Refused(String),
    /// There was no memory to say what came of it.
    NoMemory,
}
