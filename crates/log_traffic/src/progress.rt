//! How far the log of a publication has come.

ghost use Rattle.log_traffic.specs.Progress.{consumed_held, progress_held};
ghost use Rattle.std.specs.Prelude.{◌≡◌};

use crate::any_log::AnyLog;
use frame_codec::{StatusMessage, position};

/// How far the log of a publication has come. Each is a position in its stream, in bytes.
#[derive(Clone, Copy, Debug, PartialEq, Eq)]
pub struct Progress {
    /// The one after the last frame.
    pub position: u64,
    /// The one from which on no offer is taken.
    pub limit: u64,
    /// The one up to which frames were sent in datagrams. A log that nobody is sent to stays where it began.
    pub sent: u64,
    /// Whether anybody takes what is offered.
    pub connected: bool,
}

impl AnyLog {
    /// How far the log of a publication has come, and whether it is connected at the moment `now`, where the last status
    /// message stands for `timeout`, both in nanoseconds. `None` of a remote stream's.
    pub fn progress(&self, now: u64, timeout: u64) -> Option<Progress>
        ensures { result ≡ progress_held now timeout self.now }
    {
        match self {
            AnyLog::Term(log) => Some(Progress {
                position: log.tail(),
                limit: log.limit(),
                sent: log.sender_position(),
                connected: log.connected(now, timeout),
            }),
            AnyLog::Image(_) => None,
        }
    }

    /// Up to which position a receiver has taken all by what it reports to the log of a publication; `None` of a remote
    /// stream's.
    pub fn consumed(&self, message: &StatusMessage) -> Option<u64>
        ensures { result ≡ consumed_held message.now self.now }
    {
        match self {
            AnyLog::Term(log) => {
                let ident = log.ident();
                Some(position(
                    ident.initial_term,
                    message.consumption_term_id,
                    message.consumption_term_offset,
                    ident.term_length,
                ))
            }
            AnyLog::Image(_) => None,
        }
    }
}
