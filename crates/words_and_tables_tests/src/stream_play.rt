//! Streams that tests play with. Where no memory is there, nothing is as a test expects.

use crate::readers::{Asked, is_asked};
use channel_uri::{Address, Channel, UriError};
use std::alloc::{AllocError, Global};
use std::mem::replace;
use stream_registry::{
    Adding, ImageWanted, LogPlace, Measures, Pair, StreamFault, Streams, Wanted,
};

/// How long a log lingers whose channel does not say.
pub(crate) const LINGER: u64 = 5_000_000_000;

/// Streams, and where their memory comes from.
#[derive(Drop)]
pub(crate) struct Play {
    pub(crate) alloc: Global,
    pub(crate) streams: Streams,
}

/// What becomes of a publication.
#[derive(Clone, Copy)]
pub(crate) enum Answer {
    /// A log of its own, of this session.
    Made(i32),
    /// The log of another, of this source and session.
    Joined(u64, i32),
    Refused(StreamFault),
}

/// What there are many of.
#[derive(Clone, Copy)]
pub(crate) enum Many {
    /// Logs of their own on stream 10 of shared memory, whose sessions ascend from 1.
    Logs,
    /// Publications that join log 1, of session 1.
    Joined,
    /// Subscriptions of client 1.
    Subscriptions,
}

/// What is done with streams, or asked of them. Numbers come first, and then clients, who are 1 where none is said; streams
/// are 10 where none is said.
#[derive(Clone, Copy)]
pub(crate) enum Step {
    /// No streams are there, of which the first session that is looked for is 1, or another.
    Begin,
    BeginFrom(i32),
    /// A publication that others may join is answered so. It is done then, and the log lies at the page of its number.
    Publishes(u64, u64, &'static str, Answer),
    /// A publication on this stream, which is exclusive or not.
    PublishesOn(u64, &'static str, i32, bool, Answer),
    /// A log of this number is made there, in an arena of so many pages, of a client of the same number.
    Makes(u64, u32, &'static str, u64),
    /// A subscription finds room. It is there then.
    Subscribes(u64, u64, &'static str),
    /// An image of this stream and session finds room. It is there then, and its log lies at the page of its number.
    Images(u64, &'static str, i32, i32),
    /// As many come as there are numbers from the first one to the one after the last.
    Come(Many, u64, u64),
    /// A client takes back a publication at a moment.
    Unpublishes(u64, u64, u64, Result<(), StreamFault>),
    /// A client takes back a subscription.
    Unsubscribes(u64, u64, Result<(), StreamFault>),
    /// A client leaves at 0 or at another moment.
    Leaves(u64, u64),
    /// Two images go, or one that is named twice.
    ImagesGo(u64, u64),
    CloseAll,
    /// At this moment the log of this source and place closes, or none.
    Closes(u64, Option<(u64, u64)>),
    /// At 0 that log closes, where two images are silent.
    ClosesSilent((u64, u64), (u64, u64)),
    /// A copy has one log, two registrations and two subscriptions, once all is closed after it.
    IsCopied,
    /// There are so many logs, registrations and subscriptions.
    Has(usize, usize, usize),
    /// So many are registered with the log.
    Registered(u64, usize),
    /// The log has that slot.
    HasSlot(u64, u16),
    /// The log lingers since this moment, or not at all.
    Lingers(u64, Option<u64>),
    /// A log of this channel would go there, in an arena of so many pages.
    GoesTo(u32, &'static str, Option<u64>),
    /// An image would.
    ImageGoesTo(u32, Option<u64>),
    /// The image of this stream and session is found.
    IsFound(i32, i32),
    /// A log is read by a subscription where everything is allowed.
    Reads(u64, u64),
    /// It is where `image` is denied to client 2.
    ReadsDenied(u64, u64),
    /// A subscription of this client and stream would read each log there.
    WouldRead(u64, i32),
    /// The first so many of these are the pairs where everything is allowed.
    Pairs(usize, [Pair; 3]),
    /// They are where `image` is denied to client 2.
    PairsDenied(usize, [Pair; 3]),
}

/// Where images come.
pub(crate) const HERE: &str = "aeron:udp?endpoint=127.0.0.1:40123";

/// No streams yet, of which the first session that is looked for is `first`.
fn new(alloc: Global, first: i32) -> Result<Streams, AllocError> {
    let defaults = Measures {
        mtu: 1408,
        term_length: 65_536,
        linger: LINGER,
    };
    Streams::new(alloc, defaults, first)
}

/// No streams yet.
pub(crate) fn without_streams(alloc: Global) -> Result<Play, AllocError> {
    Ok(Play {
        alloc,
        streams: new(alloc, 1)?,
    })
}

/// Whether streams find memory. They are the play's then.
fn begins(play: &mut Play, first: i32) -> bool {
    match new(play.alloc, first) {
        Ok(streams) => {
            drop(replace(&mut play.streams, streams));
            true
        }
        Err(_) => false,
    }
}

fn adding_of(answer: Answer) -> Result<Adding, StreamFault> {
    match answer {
        Answer::Made(session) => Ok(Adding::Make { session }),
        Answer::Joined(source, session) => Ok(Adding::Join { source, session }),
        Answer::Refused(fault) => Err(fault),
    }
}

fn wanted(text: &str, stream: i32, exclusive: bool) -> Result<Wanted, UriError> {
    Ok(Wanted {
        channel: Channel::parse(text)?,
        stream,
        exclusive,
    })
}

/// The log of a remote publisher that sends there.
fn image_wanted(text: &str, stream: i32, session: i32) -> Result<ImageWanted, UriError> {
    Ok(ImageWanted {
        channel: Channel::parse(text)?,
        stream,
        session,
        address: Address {
            octets: [127, 0, 0, 1],
            port: 50_000,
        },
        initial_term: 3,
        join: 64,
        measures: Measures {
            mtu: 1408,
            term_length: 65_536,
            linger: 0,
        },
    })
}

/// Whether this is answered. It is done then.
fn adds(play: &mut Play, number: u64, client: u64, wanted: &Wanted, answer: Answer) -> bool {
    let adding = play.streams.adding(wanted);
    if adding != adding_of(answer) {
        return false;
    }
    if let Ok(adding) = adding {
        play.streams
            .add_publication(number, client, wanted, number, adding);
    }
    true
}

fn publishes(
    play: &mut Play,
    number: u64,
    client: u64,
    text: &str,
    stream: i32,
    exclusive: bool,
    answer: Answer,
) -> bool {
    match wanted(text, stream, exclusive) {
        Ok(wanted) => adds(play, number, client, &wanted, answer),
        Err(_) => false,
    }
}

fn is_made(play: &mut Play, number: u64, pages: u32, wanted: &Wanted, place: u64) -> bool {
    let Ok(adding) = play.streams.adding(wanted) else {
        return false;
    };
    let goes_there = play.streams.place_for(pages, wanted) == Some(place);
    if goes_there {
        play.streams
            .add_publication(number, number, wanted, place, adding);
    }
    goes_there
}

fn makes(play: &mut Play, number: u64, pages: u32, text: &str, place: u64) -> bool {
    match wanted(text, 10, true) {
        Ok(wanted) => is_made(play, number, pages, &wanted, place),
        Err(_) => false,
    }
}

fn subscribes(play: &mut Play, number: u64, client: u64, text: &str) -> bool {
    let Ok(channel) = Channel::parse(text) else {
        return false;
    };
    let has_room = play.streams.has_room_for_subscription();
    if has_room {
        play.streams.add_subscription(number, client, &channel, 10);
    }
    has_room
}

fn images(play: &mut Play, number: u64, text: &str, stream: i32, session: i32) -> bool {
    let Ok(wanted) = image_wanted(text, stream, session) else {
        return false;
    };
    let has_room = play.streams.has_room_for_image();
    if has_room {
        play.streams.add_image(number, &wanted, number);
    }
    has_room
}

fn come(play: &mut Play, many: Many, first: u64, end: u64) -> bool {
    let mut session = 0i32;
    let mut same = true;
    for number in first..end {
        session = session.wrapping_add(1);
        same &= match many {
            Many::Logs => {
                publishes(
                    play,
                    number,
                    1,
                    "aeron:ipc",
                    10,
                    true,
                    Answer::Made(session),
                )
            }
            Many::Joined => {
                publishes(
                    play,
                    number,
                    1,
                    "aeron:ipc",
                    10,
                    false,
                    Answer::Joined(1, 1),
                )
            }
            Many::Subscriptions => subscribes(play, number, 1, "aeron:ipc"),
        };
    }
    same
}

fn is_log(logs: &[LogPlace], log: Option<(u64, u64)>) -> bool {
    match log {
        Some((source, place)) => logs == [LogPlace { source, place }].as_slice(),
        None => logs.is_empty(),
    }
}

fn closes(play: &mut Play, now: u64, silent: &[u64], log: Option<(u64, u64)>) -> bool {
    let closes = match play.streams.closing(play.alloc, now, silent) {
        Ok(closing) => is_log(closing.as_slice(), log),
        Err(_) => false,
    };
    play.streams.close(now, silent);
    closes
}

fn has(streams: &Streams, logs: usize, registrations: usize, subscriptions: usize) -> bool {
    (streams.sources().len() == logs)
        & (streams.registrations().len() == registrations)
        & (streams.subscriptions().len() == subscriptions)
}

fn is_copied(play: &mut Play) -> bool {
    match play.streams.copy(play.alloc) {
        Ok(copy) => {
            play.streams.close_all();
            let whole = has(&copy, 1, 2, 2);
            drop(copy);
            whole
        }
        Err(_) => false,
    }
}

fn has_slot(streams: &Streams, number: u64, slot: u16) -> bool {
    for log in streams.sources() {
        if log.number == number {
            return log.slot == slot;
        }
    }
    false
}

fn lingers(streams: &Streams, number: u64, since: Option<u64>) -> bool {
    for log in streams.sources() {
        if log.number == number {
            return log.lingering_since() == since;
        }
    }
    false
}

fn goes_to(streams: &Streams, pages: u32, text: &str, place: Option<u64>) -> bool {
    match wanted(text, 10, true) {
        Ok(wanted) => streams.place_for(pages, &wanted) == place,
        Err(_) => false,
    }
}

fn image_goes_to(streams: &Streams, pages: u32, place: Option<u64>) -> bool {
    match image_wanted(HERE, 10, 7) {
        Ok(wanted) => streams.image_place_for(pages, &wanted) == place,
        Err(_) => false,
    }
}

/// Whether an image is found by its channel and by its endpoint, and both are one.
fn is_there(streams: &Streams, channel: &Channel, stream: i32, session: i32) -> bool {
    match (
        streams.image_at(channel, session, stream),
        channel.endpoint(),
    ) {
        (Some(image), Some(local)) => match streams.image_to(&local, session, stream) {
            Some(same) => same.number == image.number,
            None => false,
        },
        _ => false,
    }
}

fn is_found(streams: &Streams, stream: i32, session: i32) -> bool {
    match Channel::parse(HERE) {
        Ok(channel) => is_there(streams, &channel, stream, session),
        Err(_) => false,
    }
}

/// Whether what is asked is so.
fn holds(play: &Play, step: Step) -> bool {
    match step {
        Step::Has(logs, registrations, subscriptions) => {
            has(&play.streams, logs, registrations, subscriptions)
        }
        Step::Registered(source, count) => play.streams.registrations_of(source) == count,
        Step::HasSlot(number, slot) => has_slot(&play.streams, number, slot),
        Step::Lingers(number, since) => lingers(&play.streams, number, since),
        Step::GoesTo(pages, text, place) => goes_to(&play.streams, pages, text, place),
        Step::ImageGoesTo(pages, place) => image_goes_to(&play.streams, pages, place),
        Step::IsFound(stream, session) => is_found(&play.streams, stream, session),
        Step::Reads(log, subscription) => is_asked(play, false, Asked::Reads(log, subscription)),
        Step::ReadsDenied(log, subscription) => {
            is_asked(play, true, Asked::Reads(log, subscription))
        }
        Step::WouldRead(client, stream) => is_asked(play, true, Asked::WouldRead(client, stream)),
        Step::Pairs(count, pairs) => is_asked(play, false, Asked::Pairs(count, pairs)),
        Step::PairsDenied(count, pairs) => is_asked(play, true, Asked::Pairs(count, pairs)),
        _ => false,
    }
}

/// Whether what is done is answered so, or what is asked is so.
fn goes(play: &mut Play, step: Step) -> bool {
    match step {
        Step::Begin => begins(play, 1),
        Step::BeginFrom(first) => begins(play, first),
        Step::Publishes(number, client, text, answer) => {
            publishes(play, number, client, text, 10, false, answer)
        }
        Step::PublishesOn(number, text, stream, exclusive, answer) => {
            publishes(play, number, 1, text, stream, exclusive, answer)
        }
        Step::Makes(number, pages, text, place) => makes(play, number, pages, text, place),
        Step::Subscribes(number, client, text) => subscribes(play, number, client, text),
        Step::Images(number, text, stream, session) => images(play, number, text, stream, session),
        Step::Come(many, first, end) => come(play, many, first, end),
        Step::Unpublishes(client, number, now, answer) => {
            play.streams.remove_publication(client, number, now) == answer
        }
        Step::Unsubscribes(client, number, answer) => {
            play.streams.remove_subscription(client, number) == answer
        }
        Step::Leaves(client, now) => {
            play.streams.client_left(client, now);
            true
        }
        Step::ImagesGo(first, second) => {
            play.streams.remove_images(&[first, second]);
            true
        }
        Step::CloseAll => {
            play.streams.close_all();
            true
        }
        Step::Closes(now, log) => closes(play, now, &[], log),
        Step::ClosesSilent((first, second), log) => closes(play, 0, &[first, second], Some(log)),
        Step::IsCopied => is_copied(play),
        _ => holds(play, step),
    }
}

/// Whether steps, one after the other, go as they say.
pub(crate) fn are_taken(play: &mut Play, steps: &[(Step, bool)]) -> bool {
    for &(step, wanted) in steps {
        if goes(play, step) != wanted {
            return false;
        }
    }
    true
}
