//! `subscribe`: the messages that come are printed.

use crate::fault::Fault;
use crate::standing::Watch;
use crate::station::{Naks, Station};
use channel_uri::Address;
use driver_core::Reply;
use log_steps::FragmentCopies;
use media_driver::{ClientReply, DriverNaming, Elicitation, PollFault};
use piped_messages::{Form, Joiner, Received};
use printed_streams::{Image, Images, Inbox, Output};
use program_parts::{Disk, Machine, SECOND, pause, report};
use std::alloc::{AllocError, Global};
use std::thread;
use std::time::Duration;
use stream_gaps::{Gap, Sessions};

/// How many fragments a poll gives at most.
const FRAGMENTS: u32 = 256;

/// How often the last position is reported at least, where that takes no more than a second.
const REPORTS: u64 = 4;

/// What is subscribed to, and when it ends.
#[derive(Drop)]
pub(crate) struct Subscribing {
    pub(crate) channel: String,
    pub(crate) stream: i32,
    /// Where it is read, if the channel says so.
    pub(crate) endpoint: Option<Address>,
    /// Which publication is asked to send here, if one is.
    pub(crate) join: Option<Elicitation>,
    /// It ends after so many messages, if a number is given.
    pub(crate) count: Option<u64>,
    pub(crate) form: Form,
    /// After how long it ends, in nanoseconds, if it does.
    pub(crate) until: Option<u64>,
    /// Whether it ends when the last stream that it read is gone.
    pub(crate) until_gone: bool,
    /// Whether it ends at the first gap.
    pub(crate) fail_on_gap: bool,
    /// How long standard output may take nothing until a word says so, in nanoseconds.
    pub(crate) wait: u64,
    /// How long it takes at most until a publisher learns how far this subscriber has come, in nanoseconds.
    pub(crate) status_interval: u64,
    /// How long the publisher of an image may be silent, and a gap in one may stand, in nanoseconds.
    pub(crate) image_liveness: u64,
}

/// What a reply says of the streams of a subscription.
enum Word {
    Nothing,
    Came(Option<Gap>),
    Went,
}

/// What a reply says of the streams of this subscription. They are changed by it.
fn note(
    images: &mut Images,
    watch: &mut Watch,
    alloc: Global,
    reply: &ClientReply,
) -> Result<Word, Fault> {
    match reply {
        ClientReply::Of(
            Reply::AvailableImage {
                source,
                subscription,
                session,
                position,
                identity,
                ..
            },
        ) if *subscription == watch.subscription => {
            watch.add(*source, *session, *position, identity)?;
            Ok(Word::Came(images.add(alloc, *source, *session, *position)?))
        }
        ClientReply::Of(
            Reply::UnavailableImage {
                source,
                subscription,
                ..
            },
        ) if *subscription == watch.subscription => {
            watch.remove(*source);
            images.remove(*source);
            Ok(Word::Went)
        }
        ClientReply::Of(Reply::ClientTimeout { .. }) => Err(Fault::Closed),
        _ => Ok(Word::Nothing),
    }
}

/// Whether it ends since all streams are gone, and none comes back.
fn is_over(images: &Images, watch: &Watch, asked: &Subscribing, now: u64) -> bool {
    asked.until_gone && images.are_gone() && !watch.awaits(now)
}

/// Fragments of a stream are joined to messages. Whether there were any.
fn join(
    inbox: &mut Inbox,
    joiner: &mut Joiner,
    fragments: &FragmentCopies,
) -> Result<bool, AllocError> {
    let mut any = false;
    for fragment in fragments.iter() {
        any = true;
        inbox.join_one(joiner, fragment.position, fragment.flags, fragment.payload)?;
    }
    Ok(any)
}

impl<N: DriverNaming + Send + Sync + 'static, R: Machine, F: Disk> Station<N, R, F> {
    /// The line that says what came.
    fn print_received(&self, inbox: &Inbox, images: usize) {
        let received = Received {
            messages: inbox.messages,
            bytes: inbox.bytes,
            position: inbox.position,
            images: images as u64,
            losses: self.losses(Naks::Asked),
        };
        let _ = eprintln!(self.rt; "{received}");
        let _ = self.say_dropped();
    }

    /// All replies that are there are taken. A line says of each stream that goes that it is gone, and of each one that comes
    /// back what is lost before it.
    fn take_replies(
        &mut self,
        images: &mut Images,
        watch: &mut Watch,
        asked: &Subscribing,
    ) -> Result<(), Fault> {
        let rt = self.rt;
        for _ in rt.forever() {
            let Some(reply) = self.next_reply() else {
                return Ok(());
            };
            match note(images, watch, rt.alloc(), &reply)? {
                Word::Went => report(&rt, "image gone"),
                Word::Came(Some(gap)) => {
                    let _ = eprintln!(rt; "{gap}");
                    if asked.fail_on_gap {
                        return Err(Fault::Gap);
                    }
                }
                Word::Came(None) | Word::Nothing => {}
            }
        }
        unreachable!()
    }

    /// A stream is polled once, for no more than is wanted. Whether anything came; `None` where the stream is gone.
    fn poll_image(
        &mut self,
        image: &mut Image,
        read: &mut Sessions,
        inbox: &mut Inbox,
        subscription: u64,
    ) -> Result<Option<bool>, Fault> {
        let limit = inbox.limit(FRAGMENTS);
        match self
            .client
            .poll(&self.rt, subscription, image.source, limit)
        {
            Ok(fragments) => {
                let any = join(inbox, &mut image.joiner, &fragments)?;
                if any {
                    read.read(image.session, inbox.position)?;
                }
                Ok(Some(any))
            }
            Err(PollFault::Gone) => Ok(None),
            Err(PollFault::Denied(verdict)) => Err(Fault::Denied(verdict)),
            Err(PollFault::NoLook) => Ok(Some(false)),
            Err(PollFault::NoMemory) => Err(Fault::NO_MEMORY),
        }
    }

    /// Each stream is polled once. Whether anything came.
    fn poll_all(
        &mut self,
        images: &mut Images,
        inbox: &mut Inbox,
        subscription: u64,
    ) -> Result<bool, Fault> {
        let mut any = false;
        let mut gone = None;
        for image in images.rows.iter_mut() {
            match self.poll_image(image, &mut images.read, inbox, subscription)? {
                Some(came) => any = any || came,
                None => gone = Some(image.source),
            }
        }
        if let Some(source) = gone {
            images.remove(source);
        }
        Ok(any)
    }

    /// Messages come until as many came as are wanted, the time is over, or all streams are gone where that ends it. None is
    /// polled while standard output has no room for what came before.
    fn receive(
        &mut self,
        images: &mut Images,
        inbox: &mut Inbox,
        output: &mut Output,
        watch: &mut Watch,
        asked: &Subscribing,
    ) -> Result<(), Fault> {
        let rt = self.rt;
        let end = self.now().saturating_add(asked.until.unwrap_or(u64::MAX));
        let mut idle = 0u32;
        for _ in rt.forever() {
            self.take_replies(images, watch, asked)?;
            let now = self.now();
            if !inbox.is_empty() {
                pause(&rt, idle);
                idle = idle.saturating_add(1);
            } else if self.poll_all(images, inbox, watch.subscription)? {
                idle = 0;
            } else {
                self.pause(idle);
                idle = idle.saturating_add(1);
            }
            inbox.hand_on(rt.alloc(), output);
            output.watch(&rt, now)?;
            if inbox.left == 0 || now >= end || is_over(images, watch, asked, now) {
                return Ok(());
            }
            self.look_for_gaps(images, watch, asked, now)?;
            if self.tend()? {
                self.print_received(inbox, images.rows.len());
            }
        }
        unreachable!()
    }

    /// What came is printed, as long as standard output takes any of it.
    fn print_rest(&mut self, inbox: &mut Inbox, output: &mut Output) -> Result<(), Fault> {
        let rt = self.rt;
        let mut idle = 0u32;
        for _ in rt.forever() {
            inbox.hand_on(rt.alloc(), output);
            if inbox.is_empty() && output.is_done() {
                return Ok(());
            }
            if output.watch(&rt, self.now())? {
                return Err(Fault::WRITE);
            }
            pause(&rt, idle);
            idle = idle.saturating_add(1);
            self.tend()?;
        }
        unreachable!()
    }

    /// The driver runs until it has reported some more times how far the publishers were read: reports may be lost.
    fn report_last(&self, images: &Images, status_interval: u64) {
        if !images.rows.is_empty() {
            let last = status_interval
                .saturating_mul(REPORTS)
                .saturating_add(SECOND / 20)
                .min(SECOND);
            thread::sleep(&self.rt, Duration::from_nanos(last));
        }
    }

    /// Prints what comes.
    pub(crate) fn subscribe(&mut self, asked: &Subscribing) -> Result<(), Fault> {
        let rt = self.rt;
        let subscription = self.subscription(asked.channel.as_str(), asked.stream)?;
        if let Some(join) = asked.join {
            self.driver.elicit(join)?;
        }
        let mut images = Images::new(rt.alloc());
        let mut watch = Watch::new(rt.alloc(), subscription, asked.image_liveness);
        let mut inbox = Inbox::new(rt.alloc(), asked.form, asked.count);
        let mut output = Output::open(rt, self.now(), asked.wait)?;
        let received = self.receive(&mut images, &mut inbox, &mut output, &mut watch, asked);
        let printed = self.print_rest(&mut inbox, &mut output);
        self.say_causes();
        self.print_received(&inbox, images.rows.len());
        received?;
        printed?;
        self.report_last(&images, asked.status_interval);
        if images.gaps > 0 {
            return Err(Fault::Gap);
        }
        Ok(())
    }
}
