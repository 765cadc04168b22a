//! When a receiver sends a NAK of an image's gap, and when a status message.

ghost use Rattle.std.specs.Prelude.{◌≡◌};
ghost use Rattle.log_traffic.specs.Receiver.{begun, due_of, log_after, receiver_after, status_due};

use image_log::ImageLog;
use retransmit_gate::{Nak, Nakker};
use std::marker::Model;

/// What a status message says of an image.
#[derive(Clone, Copy, Debug, PartialEq, Eq)]
pub struct Status {
    /// The position up to which all subscriptions have read.
    pub base: u64,
    /// How far above the base frames may begin, in bytes.
    pub window: u32,
}

/// What a receiver is to send to the sender of an image, the NAK first.
#[derive(Clone, Copy, Debug, PartialEq, Eq)]
pub struct Due {
    pub nak: Option<Nak>,
    pub status: Option<Status>,
}

/// A turn of a receiver: what is due, and what it knows once that has gone.
#[derive(Debug, Drop)]
pub struct Turn {
    pub due: Due,
    pub after: Receiver,
}

/// What a receiver knows of an image beside its log.
#[derive(Debug, Drop)]
pub struct Receiver {
    /// How long after a status message there is another one, in nanoseconds.
    interval: u64,
    /// The greatest moment of a tick, in nanoseconds.
    latest: u64,
    nakker: Nakker,
}

impl Model for Receiver {
    ghost use Rattle.log_traffic.specs.Receiver.{Receiving};

    ghost Value = { Receiving };

    ghost view = { λ receiver. record {
      interval = receiver.interval;
      latest = receiver.latest;
      watch = receiver.nakker;
    } };
}

/// The status message that is due at a moment.
#[tactic(auto, unfolding(crate::specs::Receiver::status_due))]
fn status_due(log: &ImageLog, moment: u64, interval: u64) -> Option<Status>
    ensures { result ≡ status_due interval moment log.now.rebuilt }
{
    if !log.status_due(moment, interval) {
        return None;
    }
    Some(Status {
        base: log.base(),
        window: log.window(),
    })
}

impl Receiver {
    /// The receiver of an image of which nothing was sent yet. A status message is due past each `status_interval`
    /// nanoseconds, a NAK past `nak_delay` since a gap was first seen, and then past each `nak_repeat`.
    pub fn new(status_interval: u64, nak_delay: u64, nak_repeat: u64) -> Receiver
        ensures { result ≡ begun status_interval nak_delay nak_repeat }
    {
        Receiver {
            interval: status_interval,
            latest: 0,
            nakker: Nakker::new(nak_delay, nak_repeat),
        }
    }

    /// What is due at the moment `now`, in nanoseconds: a NAK of the log's gap past the two delays; a status message where
    /// none was sent yet, past the interval since the last one, and where the base moved by a quarter of the window since.
    /// Nothing is changed: [`Receiver::pass`] moves the receiver and the log on.
    ///
    /// A moment earlier than one already seen counts as the one seen.
    #[tactic(auto, unfolding(crate::specs::Receiver::due_of, crate::specs::Receiver::receiver_after))]
    pub fn due(&self, now: u64, log: &ImageLog) -> Turn
        ensures due { result.due ≡ due_of self.now log.now.rebuilt now }
        ensures after { result.after ≡ receiver_after self.now log.now.rebuilt now }
    {
        let moment = self.latest.max(now);
        let mut nakker = self.nakker.copy();
        let nak = nakker.on_tick(moment, log.gap());
        let status = status_due(log, moment, self.interval);
        Turn {
            due: Due { nak, status },
            after: Receiver {
                interval: self.interval,
                latest: moment,
                nakker,
            },
        }
    }

    /// What was due at the moment `now`, in nanoseconds, has gone, as [`Receiver::due`] gave it: from then on it counts as
    /// sent.
    #[tactic(auto, unfolding(crate::specs::Receiver::due_of, crate::specs::Receiver::status_due, crate::specs::Receiver::after_status))]
    pub fn pass(&mut self, now: u64, log: &mut ImageLog, turn: Turn)
        requires due { turn.due ≡ due_of self.old log.old.rebuilt now }
        requires after { turn.after ≡ receiver_after self.old log.old.rebuilt now }
        ensures after { self.new ≡ receiver_after self.old log.old.rebuilt now }
        ensures log { log.new ≡ record log.old { rebuilt = log_after self.old log.old.rebuilt now } }
    {
        if turn.due.status.is_some() {
            log.status_sent(self.latest.max(now));
        }
        *self = turn.after;
    }
}
