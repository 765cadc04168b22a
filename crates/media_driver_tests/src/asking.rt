// What a client asks for, and what it is answered. Each wait gives up after so many tries.
use byte_strings::{ShortBytes, ShortText};
use driver_core::Reply;
use media_driver::{Client, ClientReply, Clock, DriverNaming, Mail, OfferFault};
use std::sync::Wait;
use std::thread;

/// How often a wait tries: for some seconds at least, since what it waits for may itself sleep for a quarter of one.
pub(crate) const TRIES: u32 = 10_000_000;

/// What went wrong, or that nothing did.
pub(crate) type Outcome = Result<(), &'static str>;

/// The next mail of a client, waited for.
pub(crate) fn next_mail<N: DriverNaming, C: Clock>(
    client: &mut Client<N, C>,
) -> Result<Mail<N>, &'static str> {
    for _ in 0..TRIES {
        if let Some(mail) = client.next_mail() {
            return Ok(mail);
        }
        thread::yield_now();
    }
    Err("no mail came")
}

/// The next reply of an entry, waited for.
pub(crate) fn next_reply<N: DriverNaming, C: Clock>(
    client: &mut Client<N, C>,
) -> Result<Reply, &'static str> {
    let mail = next_mail(client)?;
    match mail.reply() {
        ClientReply::Of(reply) => Ok(reply),
        ClientReply::NoMemory { .. } => Err("there was no memory for a command"),
    }
}

/// A subscription, as the next reply says it.
pub(crate) fn subscribed<N: DriverNaming, C: Clock, R: Wait>(
    rt: &R,
    client: &mut Client<N, C>,
    channel: &str,
    stream: i32,
) -> Result<u64, &'static str> {
    let Ok(asked) = client.add_subscription(rt, channel, stream) else {
        return Err("the subscription is not asked for");
    };
    match next_reply(client)? {
        Reply::SubscriptionReady {
            correlation,
            registration,
        } if correlation == asked => Ok(registration),
        _ => Err("the subscription is not ready"),
    }
}

/// The registration with a publication, as the next reply says it.
pub(crate) fn published<N: DriverNaming, C: Clock, R: Wait>(
    rt: &R,
    client: &mut Client<N, C>,
    channel: &str,
    stream: i32,
) -> Result<u64, &'static str> {
    let Ok(asked) = client.add_publication(rt, channel, stream) else {
        return Err("the publication is not asked for");
    };
    match next_reply(client)? {
        Reply::PublicationReady {
            correlation,
            registration,
            ..
        } if correlation == asked => Ok(registration),
        _ => Err("the publication is not ready"),
    }
}

/// The source that the subscription reads, as the next reply says it.
pub(crate) fn source_of<N: DriverNaming, C: Clock>(
    client: &mut Client<N, C>,
    subscription: u64,
) -> Result<u64, &'static str> {
    match next_reply(client)? {
        Reply::AvailableImage {
            source,
            subscription: reader,
            ..
        } if reader == subscription => Ok(source),
        _ => Err("the subscription reads no log"),
    }
}

/// A counter of the client's, as the next reply says it.
pub(crate) fn counted<N: DriverNaming, C: Clock, R: Wait>(
    rt: &R,
    client: &mut Client<N, C>,
    type_id: i32,
) -> Result<u64, &'static str> {
    let (key, label) = (ShortBytes::new(&[7]), ShortText::new("ab"));
    let Ok(asked) = client.add_counter(rt, type_id, key, label) else {
        return Err("the counter is not asked for");
    };
    match next_reply(client)? {
        Reply::CounterReady {
            correlation,
            registration,
        } if correlation == asked => Ok(registration),
        _ => Err("the counter is not ready"),
    }
}

/// Whether an offer to a log that has readers is to be tried again.
pub(crate) fn passes(fault: OfferFault) -> bool {
    matches!(fault, OfferFault::BackPressured | OfferFault::AdminAction)
}

/// Offers a message to a log that has readers, again where it may be taken later. The position after it.
pub(crate) fn offered<N: DriverNaming, C: Clock, R: Wait>(
    rt: &R,
    client: &mut Client<N, C>,
    registration: u64,
    message: &[u8],
) -> Result<u64, OfferFault> {
    let mut last = OfferFault::BackPressured;
    for _ in 0..TRIES {
        match client.offer(rt, registration, message) {
            Ok(position) => return Ok(position),
            Err(fault) if passes(fault) => last = fault,
            Err(fault) => return Err(fault),
        }
        thread::yield_now();
    }
    Err(last)
}
