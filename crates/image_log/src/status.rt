//! When a receiver reports to its sender how far it is.

ghost use Rattle.std.specs.Prelude.{◌≡◌};
ghost use Rattle.image_log.specs.Status.{is_due, is_old};

/// The status message that was sent last.
#[derive(Clone, Copy, Debug, PartialEq, Eq)]
pub struct LastStatus {
    /// When it was sent, in nanoseconds.
    pub moment: u64,
    /// The base that it reported.
    pub base: u64,
}

impl LastStatus {
    /// Whether it was sent longer ago than the interval, or the base moved by a quarter of the window since.
    fn is_old(&self, now: u64, interval: u64, base: u64, window: u64) -> bool
        ensures { result ≡ is_old now interval base window self.now }
    {
        now.saturating_sub(self.moment) > interval || base.saturating_sub(self.base) >= window / 4
    }
}

/// Whether a status message is due, after the last one.
pub(crate) fn is_due(
    last: Option<LastStatus>,
    now: u64,
    interval: u64,
    base: u64,
    window: u64,
) -> bool
    ensures { result ≡ is_due now interval base window last }
{
    match last {
        None => true,
        Some(last) => last.is_old(now, interval, base, window),
    }
}
