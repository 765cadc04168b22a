//! What a command asks for, as far as it counts.

ghost use Rattle.channel_uri.specs.Channel.{denotes};
ghost use Rattle.service_bounds.specs.Asking.{body_asks, given_asks, publication_of};
ghost use Rattle.std.specs.Prelude.{◌≡◌};

use crate::row::{Kind, Removal, Sort};
use channel_uri::Channel;
use command_codec::Body;

/// The bytes of a page.
const PAGE: u64 = 4_096;

/// What a command asks for, as far as it counts.
#[derive(Clone, Copy, Debug, PartialEq, Eq)]
pub enum Asked {
    /// One more of that kind, which counts so long after it was removed, in nanoseconds.
    Adds { kind: Kind, linger: u64 },
    /// That one goes.
    Removes(Removal),
    /// Nothing that counts: another command, or bytes that are none.
    Other,
}

/// What an added publication counts, where a channel names no terms of its own and no linger.
fn publication(channel: &str, term_length: u32, linger: u64) -> Asked
    ensures { result ≡ publication_of term_length linger (denotes channel.now) }
{
    let Ok(channel) = Channel::parse(channel) else {
        return Asked::Other;
    };
    let term_length = channel.term_length().unwrap_or(term_length);
    Asked::Adds {
        kind: Kind::Publication {
            pages: 3 * u64::from(term_length) / PAGE,
        },
        linger: channel.linger().unwrap_or(0).max(linger),
    }
}

/// What a command asks for.
fn asked_by(body: &Body, term_length: u32, linger: u64) -> Asked
    ensures { result ≡ body_asks term_length linger body.now }
{
    match body {
        Body::AddPublication(add) => publication(add.channel.as_str(), term_length, linger),
        Body::AddExclusivePublication(add) => {
            publication(add.channel.as_str(), term_length, linger)
        }
        Body::AddSubscription(_) => Asked::Adds {
            kind: Kind::Subscription,
            linger: 0,
        },
        Body::AddCounter(_) => Asked::Adds {
            kind: Kind::Counter,
            linger: 0,
        },
        Body::RemovePublication(removal) => Asked::Removes(Removal {
            sort: Sort::Publication,
            registration: removal.registration,
        }),
        Body::RemoveSubscription(removal) => Asked::Removes(Removal {
            sort: Sort::Subscription,
            registration: removal.registration,
        }),
        Body::RemoveCounter(removal) => Asked::Removes(Removal {
            sort: Sort::Counter,
            registration: removal.registration,
        }),
        _ => Asked::Other,
    }
}

/// What is asked for by bytes that came as a command: nothing where they are none. `term_length`, in bytes, and `linger`, in
/// nanoseconds, are those of a publication whose channel names none.
pub fn asked_of(body: &Option<Body>, term_length: u32, linger: u64) -> Asked
    ensures { result ≡ given_asks term_length linger body.now }
{
    match body {
        Some(body) => asked_by(body, term_length, linger),
        None => Asked::Other,
    }
}
