//! `run`: a driver's client sends itself a message.

use crate::fault::Fault;
use crate::replies::{Answered, answer_in, say};
use crate::station::OwnClient;
use media_driver::{DriverNaming, OfferFault, PollFault};
use program_parts::Machine;
use std::fmt::Write;
use std::thread;

/// The channel on which the client sends itself a message.
const CHANNEL: &str = "aeron:ipc";

/// The stream.
const STREAM: i32 = 1001;

/// The message.
const MESSAGE: &[u8] = b"hello";

/// The answer to the command of this correlation id, if it comes within so many tries.
fn answer_within<N: DriverNaming, R: Machine>(
    client: &mut OwnClient<N, R>,
    correlation: u64,
    tries: u64,
) -> Result<Option<Answered>, Fault> {
    for _ in 0..tries {
        if let Some(mail) = client.next_mail() {
            if let Some(answered) = answer_in(&mail.reply(), correlation)? {
                return Ok(Some(answered));
            }
        }
        thread::yield_now();
    }
    Ok(None)
}

/// The registration that an answer gives. The answer is printed, with this text where it is not a refusal.
fn registration_in<R: Machine>(
    rt: &R,
    answered: Option<Answered>,
    ready: &str,
) -> Result<Option<u64>, Fault> {
    match answered {
        Some(Answered::Ready(stands)) => {
            say(rt, ready)?;
            Ok(Some(stands.registration))
        }
        Some(Answered::Refused(refusal)) => {
            let text = refusal.text(rt.alloc())?;
            say(rt, text.as_str())?;
            Ok(None)
        }
        None => Ok(None),
    }
}

/// Whether the message is taken within so many tries.
fn is_offered<N: DriverNaming, R: Machine>(
    rt: &R,
    client: &mut OwnClient<N, R>,
    registration: u64,
    tries: u64,
) -> bool {
    for _ in 0..tries {
        match client.offer(rt, registration, MESSAGE) {
            Ok(_) => return true,
            Err(OfferFault::Denied(_) | OfferFault::Closed | OfferFault::TooLong) => return false,
            Err(_) => thread::yield_now(),
        }
    }
    false
}

/// The bytes of a fragment, as a line gives them.
fn line_of<R: Machine>(rt: &R, payload: &[u8]) -> Result<String, Fault> {
    let mut line = String::from_str(rt.alloc(), "received ")?;
    for byte in payload {
        write!(line, "{byte:02x}")?;
    }
    Ok(line)
}

/// The line that gives the first fragment that is polled, if one comes within so many tries.
fn received<N: DriverNaming, R: Machine>(
    rt: &R,
    client: &mut OwnClient<N, R>,
    subscription: u64,
    source: u64,
    tries: u64,
) -> Result<Option<String>, Fault> {
    for _ in 0..tries {
        match client.poll(rt, subscription, source, 1) {
            Ok(fragments) => {
                if let Some(fragment) = fragments.iter().next() {
                    return Ok(Some(line_of(rt, fragment.payload)?));
                }
            }
            Err(PollFault::NoMemory) => return Err(Fault::NO_MEMORY),
            Err(_) => {}
        }
        thread::yield_now();
    }
    Ok(None)
}

/// What comes of the message is printed. The registration of a publication that nobody else has is the number of its log.
fn exchange<N: DriverNaming, R: Machine>(
    rt: &R,
    client: &mut OwnClient<N, R>,
    subscription: u64,
    publication: u64,
    tries: u64,
) -> Result<(), Fault> {
    if is_offered(rt, client, publication, tries) {
        if let Some(line) = received(rt, client, subscription, publication, tries)? {
            return say(rt, line.as_str());
        }
    }
    say(rt, "nothing received")
}

/// The client subscribes and publishes, and sends itself the message. What comes of it is printed. Each wait ends after so many
/// tries.
pub(crate) fn try_out<N: DriverNaming, R: Machine>(
    rt: &R,
    client: &mut OwnClient<N, R>,
    tries: u64,
) -> Result<(), Fault> {
    let command = client.add_subscription(rt, CHANNEL, STREAM)?;
    let answered = answer_within(client, command, tries)?;
    let subscription = registration_in(rt, answered, "subscription ready")?;
    let command = client.add_publication(rt, CHANNEL, STREAM)?;
    let answered = answer_within(client, command, tries)?;
    let publication = registration_in(rt, answered, "publication ready")?;
    match (subscription, publication) {
        (Some(subscription), Some(publication)) => {
            exchange(rt, client, subscription, publication, tries)
        }
        _ => say(rt, "nothing received"),
    }
}
