//! How far an open log has come, and those that read it.

ghost use Rattle.log_traffic.specs.Held.{position_held};
ghost use Rattle.log_traffic.specs.Progress.{consumed_held, progress_held};
ghost use Rattle.std.specs.Prelude.{◌≡◌};

use crate::open_log::OpenLog;
use frame_codec::StatusMessage;
use log_traffic::Progress;

impl OpenLog {
    /// How far the log of a publication has come, and whether it is connected at the moment `now`, where the last status
    /// message stands for `timeout`, both in nanoseconds. `None` of an image's.
    pub fn progress(&self, now: u64, timeout: u64) -> Option<Progress>
        ensures { result ≡ progress_held now timeout self.now.log }
    {
        self.log.progress(now, timeout)
    }

    /// Up to which position a receiver has taken all by what it reports to the log of a publication; `None` of an image's.
    pub fn consumed(&self, message: &StatusMessage) -> Option<u64>
        ensures { result ≡ consumed_held message.now self.now.log }
    {
        self.log.consumed(message)
    }

    /// How far a subscription has read, if it reads the log.
    pub fn pair_position(&self, subscription: u64) -> Option<u64>
        ensures { result ≡ position_held self.now.log subscription }
    {
        self.log.pair_position(subscription)
    }
}
