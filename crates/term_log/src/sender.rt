//! What a sender keeps of the log that it sends.

ghost use Rattle.std.specs.Prelude.{◌≡◌, ◌^◌, ◌<◌, not, true};
ghost use Rattle.term_log.specs.Sender.{Sending, after_setup, after_status, budget_of, is_past, is_setup_due, later_of, sending, status_of};

use crate::status::Status;
use std::marker::Model;

/// How far a sender has sent, how far it may send, and when it did what.
#[derive(Debug, Drop)]
pub(crate) struct Sender {
    /// The position up to which it has sent.
    position: u64,
    /// The position up to which it may send.
    limit: u64,
    /// When the last status message was accepted, in nanoseconds.
    status: Option<u64>,
    /// A SETUP was asked for, and none was cut since.
    elicited: bool,
    /// When the last SETUP was cut, in nanoseconds.
    setup: Option<u64>,
    /// When the last datagram of any kind was cut, in nanoseconds.
    datagram: Option<u64>,
}

impl Model for Sender {
    ghost use Rattle.term_log.specs.Sender.{Sending, sending_code};

    ghost Value = { Sending };

    ghost coded = { sending_code };

    ghost view = { λ s. record {
      position = s.position;
      limit = s.limit;
      status = s.status;
      elicited = s.elicited;
      setup = s.setup;
      datagram = s.datagram;
    } };
}

/// `now` is past the limit since `last`, or there was no `last`.
fn is_past(now: u64, last: Option<u64>, limit: u64) -> bool
    ensures { result ≡ is_past now last limit }
{
    match last {
        None => true,
        Some(last) => now.saturating_sub(last) > limit,
    }
}

/// The later of the last moment and `now`, or `now` where there was none.
fn later_of(last: Option<u64>, now: u64) -> Option<u64>
    ensures { result ≡ later_of last now }
{
    match last {
        None => Some(now),
        Some(last) => Some(last.max(now)),
    }
}

impl Sender {
    /// Nothing was sent yet of a log that begins there.
    pub(crate) fn new(start: u64) -> Sender
        ensures { result ≡ sending start }
    {
        Sender {
            position: start,
            limit: start,
            status: None,
            elicited: false,
            setup: None,
            datagram: None,
        }
    }

    /// The position up to which it has sent.
    pub(crate) fn position(&self) -> u64
        ensures { result ≡ self.now.position }
    {
        self.position
    }

    /// It has sent up to there.
    pub(crate) fn sent(&mut self, position: u64)
        ensures { self.new ≡ record self.old { position = position } }
    {
        self.position = position;
    }

    /// A status message came, which has that much room after a position.
    pub(crate) fn status(&mut self, now: u64, position: u64, room: u32) -> Status
        requires { self.old.position < 2 ^ 63 }
        ensures answer { result ≡ status_of self.old position room }
        ensures after { self.new ≡ after_status result now self.old }
    {
        if position > self.position {
            return Status::OutOfWindow;
        }
        let limit = self.limit.max(position + u64::from(room));
        self.limit = limit;
        self.status = later_of(self.status, now);
        Status::Accepted(limit)
    }

    /// A SETUP is asked for.
    pub(crate) fn elicit(&mut self)
        ensures { self.new ≡ record self.old { elicited = true } }
    {
        self.elicited = true;
    }

    /// Whether a status message was accepted within the timeout.
    pub(crate) fn is_heard(&self, now: u64, timeout: u64) -> bool
        ensures { result ≡ not (is_past now self.now.status timeout) }
    {
        !is_past(now, self.status, timeout)
    }

    /// Whether a SETUP is due.
    pub(crate) fn setup_due(&self, connected: bool, now: u64, interval: u64) -> bool
        ensures { result ≡ is_setup_due self.now connected now interval }
    {
        self.elicited || (!connected && is_past(now, self.setup, interval))
    }

    /// A SETUP was cut.
    pub(crate) fn setup_sent(&mut self, now: u64)
        ensures { self.new ≡ after_setup now self.old }
    {
        self.elicited = false;
        self.setup = later_of(self.setup, now);
        self.datagram = later_of(self.datagram, now);
    }

    /// Whether a heartbeat is due.
    pub(crate) fn heartbeat_due(&self, now: u64, interval: u64) -> bool
        ensures { result ≡ is_past now self.now.datagram interval }
    {
        is_past(now, self.datagram, interval)
    }

    /// A datagram of any kind was cut.
    pub(crate) fn datagram_sent(&mut self, now: u64)
        ensures { self.new ≡ record self.old { datagram = later_of self.old.datagram now } }
    {
        self.datagram = later_of(self.datagram, now);
    }

    /// How many bytes the next datagram may have.
    pub(crate) fn budget(&self, mtu: u32) -> u32
        ensures { result ≡ budget_of self.now mtu }
    {
        let room = self.limit.saturating_sub(self.position);
        room.min(u64::from(mtu)) as u32
    }
}
