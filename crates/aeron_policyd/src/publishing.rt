//! `publish`: standard input goes out as messages.

use crate::fault::Fault;
use crate::replies::Ready;
use crate::station::{Naks, Station};
use channel_uri::Address;
use media_driver::{DriverNaming, Messages, OfferFault, PublicationPositions};
use piped_messages::{Cut, Sent, first_message};
use program_parts::{Disk, Input, Machine, pause};
use std::alloc::{AllocError, Global};
use stream_gaps::{Gap, NotTaken, TakenUp, Untaken};

/// How far looks at the log are apart, in nanoseconds.
const APART: u64 = 1_000_000;

/// Another address to which a publication's messages go, by a channel of its own.
#[derive(Drop)]
pub(crate) struct Other {
    pub(crate) address: Address,
    pub(crate) channel: String,
}

/// What is published, and how long is waited.
#[derive(Drop)]
pub(crate) struct Publishing {
    pub(crate) channel: String,
    pub(crate) stream: i32,
    pub(crate) by: Cut,
    /// How long a message may wait until the log takes it, in nanoseconds.
    pub(crate) wait: u64,
    /// How long the last messages may wait until a subscriber has taken them, in nanoseconds.
    pub(crate) linger: u64,
    /// The addresses to which they go too.
    pub(crate) to: Vec<Other>,
    /// Whether it ends at the first gap.
    pub(crate) fail_on_gap: bool,
}

/// What came of the messages of a publication so far.
#[derive(Drop)]
struct Progress {
    registration: u64,
    session: i32,
    messages: u64,
    bytes: u64,
    position: u64,
    /// Up to which position all that was sent was taken, as far as it is known.
    consumed: u64,
    untaken: Untaken,
    taken_up: TakenUp,
    /// How often the stream was taken up again further on than it was left.
    gaps: u64,
    /// When the log is looked at next, in nanoseconds.
    due: u64,
    /// Since when the next message waits, in nanoseconds of the machine's steady clock, and how often it was tried.
    since: Option<u64>,
    waited: u32,
}

impl Progress {
    fn new(alloc: Global, ready: Ready) -> Progress {
        Progress {
            registration: ready.registration,
            session: ready.session.unwrap_or(0),
            messages: 0,
            bytes: 0,
            position: 0,
            consumed: 0,
            untaken: Untaken::new(alloc),
            taken_up: TakenUp::new(),
            gaps: 0,
            due: 0,
            since: None,
            waited: 0,
        }
    }

    /// A message was taken by the log.
    fn note(&mut self, position: u64, length: usize) -> Result<(), AllocError> {
        self.messages = self.messages.saturating_add(1);
        self.bytes = self.bytes.saturating_add(length as u64);
        self.position = position;
        self.since = None;
        self.waited = 0;
        self.untaken.send(position, self.consumed)
    }

    /// Whether it is time to look at the log.
    fn is_due(&mut self, now: u64) -> bool {
        if now < self.due {
            return false;
        }
        self.due = now.saturating_add(APART);
        true
    }

    /// Nobody was there as the stream was announced at a position, if it was: that is as a look which finds nobody.
    fn announce(&mut self, announced: Option<u64>) {
        if let Some(position) = announced {
            if self.taken_up.to.is_none() {
                let _ = self.taken_up.look(self.session, position, None, u64::MAX);
            }
        }
    }

    /// The log was looked at, and the least that was reported. The gap, where the stream was taken up again further on than it
    /// was left. Where no subscriber is heard, `consumed` stays as it was.
    fn look(&mut self, positions: &PublicationPositions, least: u64) -> Option<Gap> {
        self.consumed = positions.consumed.unwrap_or(self.consumed);
        let gap = self
            .taken_up
            .look(self.session, positions.sent, positions.consumed, least)?;
        self.gaps = self.gaps.saturating_add(1);
        Some(gap)
    }

    /// What nobody took, if there is any.
    fn not_taken(&self) -> Option<NotTaken> {
        let messages = self.untaken.count(self.consumed);
        if messages == 0 {
            return None;
        }
        Some(NotTaken {
            messages: messages as u64,
            from: self.consumed,
        })
    }

    /// The line that says how far it is.
    fn print<N: DriverNaming + Send + Sync + 'static, R: Machine, F: Disk>(
        &self,
        station: &Station<N, R, F>,
    ) {
        let sent = Sent {
            messages: self.messages,
            bytes: self.bytes,
            position: self.position,
            consumed: self.consumed,
            losses: station.losses(Naks::Heard),
        };
        let _ = eprintln!(station.rt; "{sent}");
        let _ = station.say_dropped();
    }
}

/// The fault of a message that waited for too long, or that no wait helps.
fn fault_of(refused: OfferFault) -> Fault {
    match refused {
        OfferFault::Closed => Fault::Closed,
        OfferFault::Denied(verdict) => Fault::Denied(verdict),
        OfferFault::TooLong => Fault::TooLongMessage,
        OfferFault::NotConnected => Fault::NoSubscriber,
        OfferFault::MaxPosition => Fault::MaxPosition,
        OfferFault::BackPressured | OfferFault::AdminAction => Fault::BackPressure,
        OfferFault::NoLook => Fault::NoLook,
    }
}

/// Whether a message that is refused so may be taken later.
fn may_wait(refused: OfferFault) -> bool {
    matches!(
        refused,
        OfferFault::NotConnected
            | OfferFault::BackPressured
            | OfferFault::AdminAction
            | OfferFault::NoLook
    )
}

/// A message was refused: it waits, for so long at most.
fn wait_on<R: Machine>(
    rt: &R,
    progress: &mut Progress,
    refused: OfferFault,
    now: u64,
    limit: u64,
) -> Result<(), Fault> {
    if !may_wait(refused) {
        return Err(fault_of(refused));
    }
    let since = progress.since.unwrap_or(now);
    if now.saturating_sub(since) > limit {
        return Err(fault_of(refused));
    }
    progress.since = Some(since);
    if !matches!(refused, OfferFault::AdminAction) {
        pause(rt, progress.waited);
        progress.waited = progress.waited.saturating_add(1);
    }
    Ok(())
}

/// How many messages are offered at once, at most.
const BATCH: u32 = 16;

/// Messages of the input that are whole, one after another.
#[derive(Drop)]
struct Batch<'a, 'b> {
    next: Option<&'a [u8]>,
    /// What is not done with: from the next message on, and what stands after it.
    bytes: &'a [u8],
    rest: &'a [u8],
    /// How it is cut, and whether the input ends with it.
    by: Cut,
    ended: bool,
    progress: &'b mut Progress,
    /// Whether there was no memory to note a message that was taken.
    lacks: bool,
}

impl<'a, 'b> Batch<'a, 'b> {
    /// The next message is cut off, if there is one.
    fn cut(&mut self) {
        self.bytes = self.rest;
        match first_message(self.rest, self.by, self.ended) {
            Some((message, rest)) => {
                self.next = Some(message);
                self.rest = rest;
            }
            None => self.next = None,
        }
    }
}

impl<'a, 'b> Messages for Batch<'a, 'b> {
    ghost use Rattle.std.specs.Option.{option_map};

    ghost next_is = { λ batch. option_map (λ message. message.now) batch.next };

    ghost went = { λ before position after. Unit {0} };

    fn next(&self) -> Option<&[u8]> {
        self.next
    }

    fn taken(&mut self, position: u64) {
        let length = match self.next {
            Some(message) => message.len(),
            None => 0,
        };
        if self.progress.note(position, length).is_err() {
            self.lacks = true;
        }
        self.cut();
    }
}

/// What came of a batch, and how many bytes are not done with. `None` where no message was whole.
struct Came {
    offered: Option<Result<(), OfferFault>>,
    left: usize,
    lacks: bool,
}

impl<N: DriverNaming + Send + Sync + 'static, R: Machine, F: Disk> Station<N, R, F> {
    /// The first messages that are left are offered, if there are any.
    fn offer_batch(&mut self, input: &Input, progress: &mut Progress) -> Came {
        let registration = progress.registration;
        let (bytes, by, ended) = input.uncut();
        let mut batch = Batch {
            next: None,
            bytes,
            rest: bytes,
            by,
            ended,
            progress,
            lacks: false,
        };
        batch.cut();
        let offered = match batch.next {
            Some(_) => Some(
                self.client
                    .offer_many(&self.rt, registration, &mut batch, BATCH),
            ),
            None => None,
        };
        Came {
            offered,
            left: batch.bytes.len(),
            lacks: batch.lacks,
        }
    }

    /// The first messages that are left are offered, or more of the input is taken. Whether anything was done.
    fn offer_next(
        &mut self,
        input: &mut Input,
        progress: &mut Progress,
        wait: u64,
    ) -> Result<bool, Fault> {
        let Came {
            offered,
            left,
            lacks,
        } = self.offer_batch(input, progress);
        let Some(offered) = offered else {
            return Ok(input.take()?);
        };
        input.pass(left);
        if lacks {
            return Err(Fault::NO_MEMORY);
        }
        if let Err(refused) = offered {
            wait_on(&self.rt, progress, refused, self.now(), wait)?;
        }
        Ok(true)
    }

    /// Looks at the log: how far the subscribers are, and what they did not get.
    fn look(&mut self, progress: &mut Progress, asked: &Publishing) -> Result<(), Fault> {
        // a SETUP that went before the look, and a report that came before it
        progress.announce(self.ties.notes.take_announced());
        let found = self
            .client
            .publication_positions(&self.rt, progress.registration);
        if let Ok(positions) = found {
            let least = match positions.consumed {
                Some(_) => self.ties.notes.take_reported(),
                None => u64::MAX,
            };
            if let Some(gap) = progress.look(&positions, least) {
                let _ = eprintln!(self.rt; "{gap}");
            }
        }
        if asked.fail_on_gap && progress.gaps > 0 {
            return Err(Fault::Gap);
        }
        Ok(())
    }

    /// Does what is due beside the messages.
    fn go_on(&mut self, progress: &mut Progress, asked: &Publishing) -> Result<(), Fault> {
        if self.tend()? {
            progress.print(self);
        }
        if progress.is_due(self.tended()) {
            self.look(progress, asked)?;
        }
        Ok(())
    }

    /// All messages of the input are offered.
    fn offer_all(
        &mut self,
        input: &mut Input,
        progress: &mut Progress,
        asked: &Publishing,
    ) -> Result<(), Fault> {
        let rt = self.rt;
        let mut idle = 0u32;
        for _ in rt.forever() {
            if self.offer_next(input, progress, asked.wait)? {
                idle = 0;
            } else if input.has_ended() {
                return Ok(());
            } else {
                input.pause(&rt, idle);
                idle = idle.saturating_add(1);
            }
            self.go_on(progress, asked)?;
        }
        unreachable!()
    }

    /// Waits until a subscriber has taken all, or for so long. The driver sends on meanwhile.
    fn linger(&mut self, progress: &mut Progress, asked: &Publishing) -> Result<(), Fault> {
        let rt = self.rt;
        let end = self.now().saturating_add(asked.linger);
        for _ in rt.forever() {
            self.go_on(progress, asked)?;
            if progress.consumed >= progress.position || self.now() > end {
                return Ok(());
            }
            pause(&rt, u32::MAX);
        }
        unreachable!()
    }

    /// What the messages came to in the end.
    fn outcome(&self, progress: &Progress, offered: Result<(), Fault>) -> Result<(), Fault> {
        let rest = progress.not_taken();
        if let Err(fault) = offered {
            if let Some(rest) = rest {
                let _ = eprintln!(self.rt; "{rest}");
            }
            if matches!(fault, Fault::NoSubscriber) {
                self.explain_silence();
            }
            return Err(fault);
        }
        if let Some(rest) = rest {
            return Err(Fault::NotTaken(rest));
        }
        if progress.gaps > 0 {
            return Err(Fault::Gap);
        }
        Ok(())
    }

    /// The publication's messages go to these addresses too.
    fn add_destinations(&mut self, registration: u64, to: &[Other]) -> Result<(), Fault> {
        for other in to {
            self.destination(registration, other.channel.as_str())?;
        }
        Ok(())
    }

    /// Publishes standard input. How many messages went is printed, whatever came of the next one.
    pub(crate) fn publish(&mut self, asked: &Publishing) -> Result<(), Fault> {
        let ready = self.publication(asked.channel.as_str(), asked.stream)?;
        self.add_destinations(ready.registration, asked.to.as_slice())?;
        let mut input = Input::open(self.rt, asked.by)?;
        let mut progress = Progress::new(self.rt.alloc(), ready);
        let offered = self.offer_all(&mut input, &mut progress, asked);
        let lingered = self.linger(&mut progress, asked);
        let looked = self.look(&mut progress, asked);
        self.say_causes();
        progress.print(self);
        self.outcome(&progress, offered.and(lingered).and(looked))
    }
}
