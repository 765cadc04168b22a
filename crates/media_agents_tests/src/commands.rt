// The commands of the first client, at moment 0.
use byte_strings::Text;
use command_codec::{AddPublication, AddSubscription, Body, Command};
use driver_core::{Event, Received};
use std::alloc::{AllocError, Global};

// The channel of every command.
const CHANNEL: &str = "aeron:udp?endpoint=127.0.0.1:40123";

// What is received of a command.
fn received(alloc: Global, command: &Command) -> Result<Received, AllocError> {
    let bytes = command.write(alloc)?;
    Received::new(alloc, bytes.as_slice())
}

// A command, as an event.
fn event_of(alloc: Global, correlation: u64, body: Body) -> Result<Event, AllocError> {
    let command = Command {
        client: 1,
        correlation,
        body,
    };
    let bytes = received(alloc, &command)?;
    Ok(Event::Command {
        now: 0,
        client: 1,
        bytes,
    })
}

// A client comes.
pub fn attaches() -> Event {
    Event::Attach {
        now: 0,
        principal: 1,
    }
}

// It subscribes to the stream.
pub fn subscribes(alloc: Global, stream: u8) -> Result<Event, AllocError> {
    let channel = Text::new(alloc, CHANNEL)?;
    let body = Body::AddSubscription(AddSubscription {
        registration_correlation: 0,
        stream: stream as i32,
        channel,
    });
    event_of(alloc, stream as u64, body)
}

// It publishes the stream.
pub fn publishes(alloc: Global, stream: u8) -> Result<Event, AllocError> {
    publishes_at(alloc, CHANNEL, stream)
}

// It says that it is still there.
pub fn keeps_alive(alloc: Global) -> Result<Event, AllocError> {
    event_of(alloc, 1, Body::ClientKeepalive)
}

// It publishes the stream at that channel.
pub fn publishes_at(alloc: Global, channel: &str, stream: u8) -> Result<Event, AllocError> {
    let channel = Text::new(alloc, channel)?;
    let body = Body::AddPublication(AddPublication {
        stream: stream as i32,
        channel,
    });
    event_of(alloc, stream as u64, body)
}
