//! Events as a world keeps them.

ghost use Rattle.std.specs.Prelude.{◌≡◌, IfOk};

use byte_strings::Bytes;
use channel_uri::Address;
use driver_core::{Event, Received};
use frame_codec::Setup;
use policy_core::Policy;
use std::alloc::{AllocError, Global};
use std::marker::Model;

/// What happened, in less room than an event has: of a command its bytes alone.
#[derive(Drop)]
enum Happening {
    Attach {
        now: u64,
        principal: u32,
    },
    Command {
        now: u64,
        client: u64,
        bytes: Bytes,
    },
    Reload {
        now: u64,
        policy: Policy,
    },
    Tick {
        now: u64,
    },
    Setup {
        now: u64,
        local: Address,
        from: Address,
        setup: Setup,
    },
}

/// An event that was taken. Contracts see the event.
#[derive(Drop)]
pub(crate) struct Kept {
    happening: Happening,
}

impl Model for Kept {
    ghost use Rattle.driver_core.specs.declared.state.event.Event.{Event};
    ghost use Rattle.driver_world.specs.Kept.{event_of};

    ghost Value = { Event };

    ghost view = { λ kept. event_of kept.happening };
}

impl Kept {
    /// The event, kept.
    pub(crate) fn of(alloc: Global, event: &Event) -> Result<Kept, AllocError>
        ensures { IfOk result (λ kept. kept ≡ event.now) }
    {
        let happening = match event {
            Event::Attach { now, principal } => Happening::Attach {
                now: *now,
                principal: *principal,
            },
            Event::Command { now, client, bytes } => Happening::Command {
                now: *now,
                client: *client,
                bytes: Bytes::new(alloc, bytes.as_slice())?,
            },
            Event::Reload { now, policy } => Happening::Reload {
                now: *now,
                policy: policy.copy(alloc)?,
            },
            Event::Tick { now } => Happening::Tick { now: *now },
            Event::Setup {
                now,
                local,
                from,
                setup,
            } => Happening::Setup {
                now: *now,
                local: *local,
                from: *from,
                setup: *setup,
            },
        };
        Ok(Kept { happening })
    }

    /// The event, as it was taken. The bytes of a command are read again.
    pub(crate) fn event(&self, alloc: Global) -> Result<Event, AllocError>
        ensures { IfOk result (λ event. event ≡ self.now) }
    {
        match &self.happening {
            Happening::Attach { now, principal } => Ok(Event::Attach {
                now: *now,
                principal: *principal,
            }),
            Happening::Command { now, client, bytes } => Ok(Event::Command {
                now: *now,
                client: *client,
                bytes: Received::new(alloc, bytes.as_slice())?,
            }),
            Happening::Reload { now, policy } => Ok(Event::Reload {
                now: *now,
                policy: policy.copy(alloc)?,
            }),
            Happening::Tick { now } => Ok(Event::Tick { now: *now }),
            Happening::Setup {
                now,
                local,
                from,
                setup,
            } => Ok(Event::Setup {
                now: *now,
                local: *local,
                from: *from,
                setup: *setup,
            }),
        }
    }
}
