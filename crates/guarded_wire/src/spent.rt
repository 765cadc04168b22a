//! How much an address asked for lately.

ghost use Rattle.guarded_wire.specs.Spending.{begun, may_ask, once_more};
ghost use Rattle.std.specs.Prelude.{◌≡◌, ◌<◌, ◌≤◌, if◌then◌else◌};

/// How long the NAKs and status messages of an address are counted together, in nanoseconds: 60 milliseconds.
const PERIOD: u64 = 60_000_000;

/// How many NAKs and status messages came, since a moment in nanoseconds.
#[derive(Clone, Copy, Debug)]
pub(crate) struct Spent {
    pub(crate) since: u64,
    pub(crate) asked: u64,
}

impl Spent {
    /// Another one came. Whether it may go on, where so many may in the time.
    pub(crate) fn ask(&mut self, now: u64, budget: u64) -> bool
        ensures may { result ≡ may_ask budget (begun now self.old) }
        ensures counted { self.new ≡ (if result then once_more (begun now self.old) else begun now self.old) }
    {
        if now.saturating_sub(self.since) >= PERIOD {
            self.since = now;
            self.asked = 0;
        }
        if self.asked >= budget {
            return false;
        }
        self.asked += 1;
        true
    }
}
