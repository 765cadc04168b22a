ghost use Rattle.receiver_reports.specs.Reports.{greater, lesser, stands};
ghost use Rattle.std.specs.Prelude.{◌≡◌};

use channel_uri::Address;

/// What a receiver reported.
#[derive(Clone, Copy, Debug, Default, PartialEq, Eq)]
pub struct Report {
    /// From where its status messages come.
    pub from: Address,
    /// The greatest position up to which it has taken the stream, in bytes.
    pub position: u64,
    /// When its last status message came, in nanoseconds.
    pub heard: u64,
}

impl Report {
    /// Whether a status message came from it not longer ago than `timeout` nanoseconds.
    fn stands(&self, now: u64, timeout: u64) -> bool
        ensures { result ≡ stands now timeout self.now }
    {
        now.saturating_sub(self.heard) <= timeout
    }

    /// The greater one of a position and its own, where it is from that address.
    pub(crate) fn greater(&self, from: &Address, greatest: u64) -> u64
        ensures { result ≡ greater from.now greatest self.now }
    {
        if self.from == *from {
            greatest.max(self.position)
        } else {
            greatest
        }
    }

    /// The lesser one of a position, if there is one, and its own, where it stands.
    pub(crate) fn lesser(&self, now: u64, timeout: u64, least: Option<u64>) -> Option<u64>
        ensures { result ≡ lesser now timeout least self.now }
    {
        if !self.stands(now, timeout) {
            return least;
        }
        match least {
            Some(least) => Some(least.min(self.position)),
            None => Some(self.position),
        }
    }
}
