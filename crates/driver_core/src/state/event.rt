ghost use Rattle.driver_core.specs.Conduct.{moment_told};
ghost use Rattle.std.specs.Prelude.{◌≡◌, [], IfOk};

use crate::state::received::Received;
use byte_strings::Items;
use channel_uri::Address;
use frame_codec::Setup;
use policy_core::Policy;
use std::alloc::{AllocError, Global};

/// What happens to the conductor, with its moment in nanoseconds. A moment before one that was seen already counts as
/// the one seen.
#[derive(Debug, Drop)]
pub enum Event {
    /// A client comes, which acts for this principal.
    Attach {
        now: u64,
        principal: u32,
    },
    /// The bytes of a command come over the handle of a client.
    Command {
        now: u64,
        client: u64,
        bytes: Received,
    },
    /// A policy is to be in force from here on, under the next number.
    Reload {
        now: u64,
        policy: Policy,
    },
    /// Time goes on.
    Tick {
        now: u64,
    },
    /// A remote publisher announces its stream.
    Setup {
        now: u64,
        /// To where the SETUP came.
        local: Address,
        /// From where it came.
        from: Address,
        setup: Setup,
    },
}

impl Event {
    /// The moment that the event tells.
    pub fn moment(&self) -> u64
        ensures { result ≡ moment_told self.now }
    {
        match self {
            Event::Attach { now, .. }
            | Event::Command { now, .. }
            | Event::Reload { now, .. }
            | Event::Tick { now }
            | Event::Setup { now, .. } => *now,
        }
    }

    /// Another event, the same as this one.
    pub fn copy(&self, alloc: Global) -> Result<Event, AllocError>
        ensures { IfOk result (λ copy. copy ≡ self.now) }
    {
        match self {
            Event::Attach { now, principal } => Ok(Event::Attach {
                now: *now,
                principal: *principal,
            }),
            Event::Command { now, client, bytes } => Ok(Event::Command {
                now: *now,
                client: *client,
                bytes: bytes.copy(alloc)?,
            }),
            Event::Reload { now, policy } => Ok(Event::Reload {
                now: *now,
                policy: policy.copy(alloc)?,
            }),
            Event::Tick { now } => Ok(Event::Tick { now: *now }),
            Event::Setup {
                now,
                local,
                from,
                setup,
            } => Ok(Event::Setup {
                now: *now,
                local: *local,
                from: *from,
                setup: *setup,
            }),
        }
    }
}

/// How far a log reaches.
#[derive(Clone, Copy, Debug, PartialEq, Eq)]
pub struct End {
    /// The log's source number.
    pub source: u64,
    /// The tail of a publication, or the contiguous position of an image.
    pub position: u64,
}

/// What the logs say to the conductor at an event.
#[derive(Debug, PartialEq, Eq, Drop)]
pub struct Inputs {
    /// The images of which nothing was heard for too long.
    pub silent: Items<u64>,
    /// How far each live log reaches.
    pub ends: Items<End>,
}

impl Inputs {
    /// What is said where there are no logs. It takes no memory.
    pub fn none(alloc: Global) -> Inputs
        ensures { result ≡ record { silent = []; ends = [] } }
    {
        Inputs {
            silent: Items::new(alloc),
            ends: Items::new(alloc),
        }
    }

    /// The same once more.
    pub fn copy(&self, alloc: Global) -> Result<Inputs, AllocError>
        ensures { IfOk result (λ copy. copy ≡ self.now) }
    {
        Ok(Inputs {
            silent: Items::from(Vec::from_slice(alloc, self.silent.as_slice())?),
            ends: Items::from(Vec::from_slice(alloc, self.ends.as_slice())?),
        })
    }
}
