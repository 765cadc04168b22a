//! How far the log of a slot has come, and those that read it or report on it.

ghost use Rattle.frame_codec.specs.Datagram.{content};
ghost use Rattle.log_slots.specs.Positions.{consumed_by, counted_as, is_limit, noted_if};
ghost use Rattle.log_traffic.specs.Progress.{consumed_held};
ghost use Rattle.std.specs.Prelude.{◌≡◌};

use channel_uri::Address;
use frame_codec::Packet;
use log_steps::{Answer, OpenLog, Progress};
use receiver_reports::Reports;

/// How far a publication has come. Each position is in bytes of its stream.
#[derive(Clone, Copy, Debug, PartialEq, Eq)]
pub struct PublicationPositions {
    /// The one after the last frame.
    pub position: u64,
    /// The one from which on no offer is taken.
    pub limit: u64,
    /// The one up to which frames were sent in datagrams. A log that nobody is sent to stays where it began.
    pub sent: u64,
    /// The least up to which the receivers have taken the stream that are heard; `None` where none is. It is never above what
    /// was sent: a report of more has no effect.
    pub consumed: Option<u64>,
    /// Whether anybody takes what is offered.
    pub connected: bool,
}

/// How far a subscription has come with a log. Each position is in bytes of its stream.
#[derive(Clone, Copy, Debug, PartialEq, Eq)]
pub struct ReadingPositions {
    /// The one up to which it has read.
    pub position: u64,
    /// The one up to which the stream is there without a gap.
    pub received: u64,
}

/// With what its receivers have taken.
pub(crate) fn counted_as(progress: Progress, consumed: Option<u64>) -> PublicationPositions
    ensures { result ≡ counted_as progress consumed }
{
    PublicationPositions {
        position: progress.position,
        limit: progress.limit,
        sent: progress.sent,
        consumed,
        connected: progress.connected,
    }
}

/// Up to which position a receiver has taken all that reports to that log by a datagram; `None` where it is no such report.
pub(crate) fn consumed_by(log: &OpenLog, packet: &Packet<'_>) -> Option<u64>
    ensures { result ≡ consumed_by (content packet.now) log.now }
{
    match packet {
        Packet::Sm(message) => log.consumed(message),
        _ => None,
    }
}

/// Whether the log accepted a report.
pub(crate) fn is_limit(answer: &Answer) -> bool
    ensures { result ≡ is_limit answer.now }
{
    matches!(answer, Answer::Limited(_))
}

/// What a receiver reported is noted where the log accepted it.
pub(crate) fn note_if(
    reports: &mut Reports,
    is_accepted: bool,
    consumed: Option<u64>,
    now: u64,
    from: &Address,
)
    ensures { reports.new ≡ noted_if is_accepted consumed now from.now reports.old }
{
    if is_accepted {
        if let Some(position) = consumed {
            reports.note(now, from, position);
        }
    }
}
