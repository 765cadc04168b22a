//! A subscriber that stands at a gap for good says so, and reads on behind it: what is asked for again came too late, or may not
//! come.

use crate::fault::Fault;
use crate::station::Station;
use crate::subscribing::Subscribing;
use channel_uri::Address;
use driver_core::SourceIdentity;
use media_driver::{DriverNaming, Elicitation};
use printed_streams::Images;
use program_parts::{Disk, Machine};
use std::alloc::{AllocError, Global};
use stream_gaps::{NotRetransmitted, Reading, Standing};

/// How far looks at the streams are apart, in nanoseconds.
const APART: u64 = 100_000_000;

/// How many NAKs are noted from one look to the next, at most.
pub(crate) const NAKS: usize = 1_024;

/// A stream of a remote publisher that is looked at.
#[derive(Drop)]
struct Watched {
    source: u64,
    session: i32,
    /// From where its publisher sends.
    publisher: Address,
    standing: Standing,
    /// Whether bytes of it were asked for again since the last look.
    asked: bool,
}

/// The streams of a subscription, and how long their reader stands in them.
#[derive(Drop)]
pub(crate) struct Watch {
    /// The registration id of the subscription.
    pub(crate) subscription: u64,
    rows: Vec<Watched>,
    /// When they are looked at next, in nanoseconds.
    due: u64,
    /// How long the publisher of an image may be silent, in nanoseconds.
    liveness: u64,
    /// Until when streams that were given up may come back, in nanoseconds.
    awaited: u64,
}

impl Watch {
    pub(crate) fn new(alloc: Global, subscription: u64, liveness: u64) -> Watch {
        Watch {
            subscription,
            rows: Vec::new(alloc),
            due: 0,
            liveness,
            awaited: 0,
        }
    }

    /// A stream is there, which is read from this position on.
    pub(crate) fn add(
        &mut self,
        source: u64,
        session: i32,
        position: u64,
        identity: &SourceIdentity,
    ) -> Result<(), AllocError> {
        if let SourceIdentity::Publisher(publisher) = identity {
            self.rows.push(Watched {
                source,
                session,
                publisher: *publisher,
                standing: Standing::new(position),
                asked: false,
            })?;
        }
        Ok(())
    }

    /// A stream is gone.
    pub(crate) fn remove(&mut self, source: u64) {
        self.rows.retain(|row| row.source != source);
    }

    /// Whether streams that were given up may still come back.
    pub(crate) fn awaits(&self, now: u64) -> bool {
        now < self.awaited
    }

    /// Whether it is time to look.
    fn is_due(&mut self, now: u64) -> bool {
        if now < self.due {
            return false;
        }
        self.due = now.saturating_add(APART);
        true
    }

    /// Bytes of that session were asked for again.
    fn ask(&mut self, session: i32) {
        for row in self.rows.iter_mut() {
            if row.session == session {
                row.asked = true;
            }
        }
    }
}

impl<N: DriverNaming + Send + Sync + 'static, R: Machine, F: Disk> Station<N, R, F> {
    /// Notes in which streams bytes were asked for again.
    fn note_naks(&mut self, watch: &mut Watch) {
        for _ in 0..NAKS {
            match self.ties.naks.pop() {
                Ok(session) => watch.ask(session),
                Err(_) => return,
            }
        }
    }

    /// Looks at a stream. What it lacks for good, if its reader stands there for so many looks.
    fn look_at(
        &mut self,
        subscription: u64,
        row: &mut Watched,
        most: u64,
    ) -> Option<NotRetransmitted> {
        let asked = row.asked;
        row.asked = false;
        let found = self
            .client
            .image_positions(&self.rt, subscription, row.source);
        let Ok(positions) = found else {
            return None;
        };
        let reading = Reading {
            position: positions.position,
            received: positions.received,
            asked,
        };
        if !row.standing.look(reading, most) {
            return None;
        }
        Some(NotRetransmitted {
            session: row.session,
            from: positions.position,
        })
    }

    /// Looks at all streams. Whether the reader of one stands at a gap for good; a line says which.
    fn look_at_all(&mut self, watch: &mut Watch) -> bool {
        let most = watch.liveness / APART;
        let mut any = false;
        for row in watch.rows.iter_mut() {
            if let Some(lost) = self.look_at(watch.subscription, row, most) {
                let _ = eprintln!(self.rt; "{lost}");
                any = true;
            }
        }
        any
    }

    /// Asks the publishers to announce their streams again, where nothing else does.
    fn elicit_again(&mut self, watch: &Watch, asked: &Subscribing) {
        let Some(endpoint) = asked.endpoint else {
            return;
        };
        if asked.join.is_some() {
            return;
        }
        for row in watch.rows.iter() {
            // where there are too many, a publisher announces it once it heard nobody for a while
            let _ = self.driver.elicit(Elicitation {
                endpoint,
                control: row.publisher,
                session_id: row.session,
                stream_id: asked.stream,
            });
        }
    }

    /// The subscription is made anew, so that each of its streams is read from where its publisher announces it again.
    fn read_on(
        &mut self,
        images: &mut Images,
        watch: &mut Watch,
        asked: &Subscribing,
        now: u64,
    ) -> Result<(), Fault> {
        watch.subscription = self.subscription_anew(
            watch.subscription,
            asked.channel.as_str(),
            asked.stream,
        )?;
        self.elicit_again(watch, asked);
        watch.rows.clear();
        images.rows.clear();
        watch.awaited = now.saturating_add(watch.liveness);
        Ok(())
    }

    /// Where the reader of a stream stands at a gap for good, that is said, and it is read on behind it. It is looked at where
    /// it is time to.
    pub(crate) fn look_for_gaps(
        &mut self,
        images: &mut Images,
        watch: &mut Watch,
        asked: &Subscribing,
        now: u64,
    ) -> Result<(), Fault> {
        if !watch.is_due(now) {
            return Ok(());
        }
        self.note_naks(watch);
        if !self.look_at_all(watch) {
            return Ok(());
        }
        images.gaps = images.gaps.saturating_add(1);
        if asked.fail_on_gap {
            return Err(Fault::Gap);
        }
        self.read_on(images, watch, asked, now)
    }
}
