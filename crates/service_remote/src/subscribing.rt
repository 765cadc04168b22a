//! `subscribe --driver`: the messages of a driver that serves are printed.

ghost use Rattle.service_records.specs.Pairs.{pairs_bytes};
ghost use Rattle.service_records.specs.Request.{request_bytes};
ghost use Rattle.service_records.specs.declared.request.Request.TheVariants.{PollAll};
ghost use Rattle.service_remote.specs.Polling.{pairs_with};
ghost use Rattle.std.specs.Prelude.{◌≡◌, ◌≤◌, ◌*◌, ◌++◌, min, OnOk};

use crate::fault::RemoteFault;
use crate::remote::Remote;
use command_codec::{AddSubscription, Body, Reply};
use frame_codec::Flags;
use piped_messages::Form;
use printed_streams::{Image, Images, Inbox};
use program_parts::{Disk, Machine};
use service_records::{Answer, Pair, Request};
use std::alloc::AllocError;
use stream_gaps::Sessions;

/// How many fragments a stream gives at once, at most.
const FRAGMENTS: u32 = 1_024;

/// How many streams a request polls at most.
const PAIRS: usize = 64;

/// How long a poll of all streams waits, in milliseconds.
const WAIT: u32 = 50;

/// How long replies are waited for where no stream is read, in milliseconds.
const PATIENCE: u32 = 200;

/// What is subscribed to, and when it ends.
#[derive(Clone, Copy)]
pub struct Wanted<'a> {
    pub channel: &'a str,
    pub stream: i32,
    /// It ends after so many messages, if a number is given.
    pub count: Option<u64>,
    pub form: Form,
    /// Whether it ends when the last stream that it read is gone.
    pub until_gone: bool,
}

/// What a reply says of the streams of a subscription.
fn note<R: Eprint>(
    rt: &R,
    images: &mut Images,
    remote: &Remote,
    reply: &Reply,
    subscription: u64,
) -> Result<(), RemoteFault> {
    match reply {
        Reply::AvailableImage(image) if image.subscription == subscription => {
            let gap = images.add(remote.alloc, image.source, image.session, image.position)?;
            if let Some(gap) = gap {
                let _ = eprintln!(rt; "{gap}");
            }
        }
        Reply::UnavailableImage(image) if image.subscription == subscription => {
            images.remove(image.source);
        }
        Reply::ClientTimeout(_) => return Err(RemoteFault::Gone),
        _ => {}
    }
    Ok(())
}

/// Takes the replies that are there, or come within so many milliseconds.
fn take_replies<R: Eprint>(
    rt: &R,
    remote: &mut Remote,
    images: &mut Images,
    subscription: u64,
    wait: u32,
) -> Result<(), RemoteFault> {
    remote.ask_for_replies(wait)?;
    for _ in 0..u64::MAX {
        match remote.reply()? {
            Some(reply) => note(rt, images, remote, &reply, subscription)?,
            None => return Ok(()),
        }
    }
    Ok(())
}

/// How many streams are polled at once, of so many: no more than one request names, nor than messages are wanted.
fn polled(streams: usize, left: u64) -> usize
    ensures { result ≡ min (min streams 64) left }
{
    (streams.min(PAIRS) as u64).min(left) as usize
}

/// How many fragments each of so many streams gives at most, so that no more messages come than are wanted.
fn limit(streams: usize, left: u64) -> u32
    ensures few { result * streams ≤ left }
    ensures most { result ≤ 1024 }
    ensures some { 1 ≤ streams → streams ≤ left → 1 ≤ result }
{
    let each = left / (streams as u64).max(1);
    each.min(u64::from(FRAGMENTS)) as u32
}

/// The pairs of a subscription with these streams stand at the end.
fn put_pairs(images: &[Image], subscription: u64, out: &mut Vec<u8>) -> Result<(), AllocError>
    ensures { OnOk result (out.new.items ≡ out.old.items ++ pairs_bytes (pairs_with subscription images.now)) }
{
    for image in images {
        let pair = Pair {
            subscription,
            source: image.source,
        };
        pair.put(out)?;
    }
    Ok(())
}

/// That these streams are polled is written with the next requests: for their fragments that are there, or come within so many
/// milliseconds.
fn ask_poll(
    remote: &mut Remote,
    images: &[Image],
    subscription: u64,
    limit: u32,
    wait: u32,
) -> Result<(), RemoteFault>
    ensures { OnOk result (remote.new.out.items ≡ remote.old.out.items ++ request_bytes (PollAll limit wait) (pairs_bytes (pairs_with subscription images.now))) }
{
    let mut pairs = Vec::new(remote.alloc);
    put_pairs(images, subscription, &mut pairs)?;
    remote.ask(Request::PollAll { limit, wait }, pairs.as_slice())
}

/// What the streams gave that were polled.
#[derive(Clone, Copy)]
struct Came {
    any: bool,
    /// One that is gone.
    gone: Option<u64>,
    /// Whether one could not be looked at.
    is_unseen: bool,
    /// How many there are up to the last one of which something was told. Those after it may not have been polled, where the
    /// answer is long.
    told: usize,
}

/// A fragment came, whose bytes are the last tail.
fn take_fragment(
    remote: &Remote,
    image: &mut Image,
    read: &mut Sessions,
    inbox: &mut Inbox,
    position: u64,
    flags: u32,
) -> Result<(), RemoteFault> {
    let flags = Flags {
        bits: (flags % 256) as u8,
    };
    inbox.join_one(&mut image.joiner, position, flags, remote.tail())?;
    read.read(image.session, position)?;
    Ok(())
}

/// Takes what the streams gave that were polled, each after its place.
fn take_parts(
    remote: &mut Remote,
    images: &mut [Image],
    read: &mut Sessions,
    inbox: &mut Inbox,
) -> Result<Came, RemoteFault> {
    let mut came = Came {
        any: false,
        gone: None,
        is_unseen: false,
        told: 0,
    };
    let mut at = usize::MAX;
    for _ in 0..u64::MAX {
        match remote.answer()? {
            Answer::Part { place } => {
                at = place as usize;
                came.told = at.saturating_add(1);
            }
            Answer::Fragment { position, flags } => {
                let Some(image) = images.get_mut(at) else {
                    return Err(RemoteFault::Protocol);
                };
                came.any = true;
                take_fragment(remote, image, read, inbox, position, flags)?;
            }
            Answer::PartRefused { code: -4 } => {
                came.gone = images.get(at).map(|image| image.source);
            }
            Answer::PartRefused { code: 1007 } => came.is_unseen = true,
            Answer::PartRefused { .. } | Answer::Refused { .. } => return Err(remote.refusal()),
            Answer::Done { .. } => return Ok(came),
            _ => return Err(RemoteFault::Protocol),
        }
    }
    Ok(came)
}

/// What a turn gave.
#[derive(Clone, Copy)]
struct Turn {
    /// Whether anything came.
    any: bool,
    /// How long replies are waited for where nothing came, in milliseconds.
    patience: u32,
}

/// So many streams were polled, of which this was told. Those that come after the last one of which something came are the first
/// of the next request, so that none is always the last.
fn turn_on(rows: &mut Vec<Image>, count: usize, came: Came) {
    let done = if came.told > 0 { came.told } else { count };
    let done = done.min(rows.len());
    if done < rows.len() {
        rows.as_mut_slice().rotate_left(done);
    }
}

/// Streams are polled by one request: all that there are, if it can name them. What came before is printed.
fn poll_next<R: Print>(
    rt: &R,
    remote: &mut Remote,
    images: &mut Images,
    inbox: &mut Inbox,
    subscription: u64,
) -> Result<Turn, RemoteFault> {
    let streams = images.rows.len();
    let count = polled(streams, inbox.left);
    if count == 0 {
        inbox.flush(rt)?;
        return Ok(Turn {
            any: false,
            patience: PATIENCE,
        });
    }
    let is_whole = count == streams;
    let wait = if is_whole { WAIT } else { 0 };
    let Images { rows, read, .. } = images;
    let asked = &mut rows.as_mut_slice()[..count];
    ask_poll(remote, asked, subscription, limit(count, inbox.left), wait)?;
    remote.flush()?;
    // while the driver polls
    inbox.flush(rt)?;
    let came = take_parts(remote, asked, read, inbox)?;
    turn_on(rows, count, came);
    if let Some(source) = came.gone {
        images.remove(source);
    }
    let has_waited = is_whole && !came.is_unseen;
    Ok(Turn {
        any: came.any,
        patience: if has_waited { 0 } else { 1 },
    })
}

/// Messages are printed until as many came as are wanted, or all streams are gone where that ends it.
fn receive<R: Machine>(
    rt: &R,
    remote: &mut Remote,
    images: &mut Images,
    inbox: &mut Inbox,
    subscription: u64,
    until_gone: bool,
) -> Result<(), RemoteFault> {
    for _ in rt.forever() {
        let turn = poll_next(rt, remote, images, inbox, subscription)?;
        if inbox.left == 0 {
            return Ok(());
        }
        if !turn.any {
            take_replies(rt, remote, images, subscription, turn.patience)?;
        }
        if until_gone && images.are_gone() {
            return Ok(());
        }
    }
    unreachable!()
}

/// The registration of a new subscription, and the streams of it that are there.
fn subscription<R: Eprint>(
    rt: &R,
    remote: &mut Remote,
    images: &mut Images,
    asked: &Wanted<'_>,
) -> Result<u64, RemoteFault> {
    let channel = remote.text(asked.channel)?;
    let correlation = remote.command(Body::AddSubscription(AddSubscription {
        registration_correlation: u64::MAX,
        stream: asked.stream,
        channel,
    }))?;
    let mut others = Vec::new(remote.alloc);
    let subscription = remote.registered(correlation, &mut others)?;
    for reply in others.iter() {
        note(rt, images, remote, reply, subscription)?;
    }
    Ok(subscription)
}

/// Says how much came.
fn print_received<R: Eprint>(rt: &R, inbox: &Inbox) {
    let messages = inbox.messages;
    let bytes = inbox.bytes;
    let position = inbox.position;
    let _ = eprintln!(rt; "received {messages} messages {bytes} bytes position {position}");
}

/// Prints what comes from a driver that serves.
pub fn subscribe<R: Machine, F: Disk>(
    rt: &R,
    files: &F,
    path: &str,
    asked: &Wanted<'_>,
) -> Result<(), RemoteFault> {
    let mut remote = Remote::open(files, path)?;
    remote.enter()?;
    let mut images = Images::new(rt.alloc());
    let of = subscription(rt, &mut remote, &mut images, asked)?;
    let mut inbox = Inbox::new(rt.alloc(), asked.form, asked.count);
    let until_gone = asked.until_gone;
    let received = receive(rt, &mut remote, &mut images, &mut inbox, of, until_gone);
    let _ = inbox.flush(rt);
    print_received(rt, &inbox);
    received?;
    if images.gaps > 0 {
        return Err(RemoteFault::Gap);
    }
    Ok(())
}
