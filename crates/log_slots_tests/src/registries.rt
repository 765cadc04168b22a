// A registry with two publications, each read by a subscription, and an image.
use byte_strings::Text;
use command_codec::{AddPublication, AddSubscription, Body, Command};
use driver_core::{Address, Event, Inputs, Received, Registry, Settings};
use frame_codec::{Flags, Setup};
use policy_core::Policy;
use std::alloc::{AllocError, Global};

pub(crate) const CLIENT: u64 = 1;

/// A publication, whose number is also that of its registration, and the subscription that reads it.
#[derive(Clone, Copy)]
pub(crate) struct Numbers {
    pub(crate) source: u64,
    pub(crate) subscription: u64,
}

pub(crate) const FIRST: Numbers = Numbers {
    source: 1,
    subscription: 2,
};

pub(crate) const SECOND: Numbers = Numbers {
    source: 3,
    subscription: 4,
};

pub(crate) const IMAGE: Numbers = Numbers {
    source: 6,
    subscription: 5,
};

/// To where the publisher of the image sends, and from where.
pub(crate) const LOCAL: Address = Address {
    octets: [127, 0, 0, 1],
    port: 40_123,
};

pub(crate) const REMOTE: Address = Address {
    octets: [127, 0, 0, 1],
    port: 40_000,
};

pub(crate) const SETUP: Setup = Setup {
    flags: Flags { bits: 0 },
    term_offset: 0,
    session_id: 7,
    stream_id: 20,
    initial_term_id: 0,
    active_term_id: 0,
    term_length: 65_536,
    mtu: 1_408,
    ttl: 0,
};

/// What client 1 asks for.
#[derive(Clone, Copy)]
enum Asked {
    Publication(i32),
    Subscription(i32, &'static str),
}

fn publication(alloc: Global, stream: i32) -> Result<Body, AllocError> {
    let channel = Text::new(alloc, "aeron:ipc")?;
    Ok(Body::AddPublication(AddPublication { stream, channel }))
}

fn subscription(alloc: Global, stream: i32, channel: &str) -> Result<Body, AllocError> {
    let channel = Text::new(alloc, channel)?;
    Ok(Body::AddSubscription(AddSubscription {
        registration_correlation: 0,
        stream,
        channel,
    }))
}

fn command(alloc: Global, asked: Asked) -> Result<Event, AllocError> {
    let body = match asked {
        Asked::Publication(stream) => publication(alloc, stream)?,
        Asked::Subscription(stream, channel) => subscription(alloc, stream, channel)?,
    };
    let command = Command {
        client: CLIENT,
        correlation: 0,
        body,
    };
    let bytes = command.write(alloc)?;
    drop(command);
    Ok(Event::Command {
        now: 0,
        client: CLIENT,
        bytes: Received::new(alloc, bytes.as_slice())?,
    })
}

fn take(alloc: Global, registry: &mut Registry, event: Event) -> Result<(), AllocError> {
    let inputs = Inputs::none(alloc);
    let outcome = registry.step(alloc, &event, &inputs);
    drop(inputs);
    drop(event);
    drop(outcome?);
    Ok(())
}

static ASKED: [Asked; 5] = [
    Asked::Publication(10),
    Asked::Subscription(10, "aeron:ipc"),
    Asked::Publication(11),
    Asked::Subscription(11, "aeron:ipc"),
    Asked::Subscription(20, "aeron:udp?endpoint=127.0.0.1:40123"),
];

fn fill(alloc: Global, registry: &mut Registry) -> Result<(), AllocError> {
    let attach = Event::Attach {
        now: 0,
        principal: 1,
    };
    take(alloc, registry, attach)?;
    for &asked in &ASKED {
        take(alloc, registry, command(alloc, asked)?)?;
    }
    let setup = Event::Setup {
        now: 0,
        local: LOCAL,
        from: REMOTE,
        setup: SETUP,
    };
    take(alloc, registry, setup)
}

fn empty(alloc: Global) -> Result<Registry, AllocError> {
    let policy = Policy::new(Vec::new(alloc), true)?;
    Registry::new(alloc, Settings::default(), policy, &[])
}

/// The registry; where everything is allowed.
pub(crate) fn filled(alloc: Global) -> Result<Registry, AllocError> {
    let mut registry = empty(alloc)?;
    match fill(alloc, &mut registry) {
        Ok(()) => Ok(registry),
        Err(refused) => {
            drop(registry);
            Err(refused)
        }
    }
}
