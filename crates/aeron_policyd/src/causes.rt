//! Why messages do not come through: each cause that the driver counts is a line, once.

use crate::station::Station;
use media_driver::{DriverNaming, Miss, Tallies};
use program_parts::{Disk, Machine};
use wire_causes::{Cause, Side};

/// How far looks at what the driver counts are apart, in nanoseconds.
const APART: u64 = 100_000_000;

/// How far what the driver counts was looked at.
#[derive(Clone, Copy)]
pub(crate) struct Causes {
    side: Side,
    /// How many rows of the driver's tallies were looked at: they stay as they are but for their counts.
    seen: usize,
    /// When it is looked for others next, in nanoseconds.
    due: u64,
}

impl Causes {
    pub(crate) fn new(side: Side) -> Causes {
        Causes {
            side,
            seen: 0,
            due: 0,
        }
    }

    /// Whether it is time to look.
    fn is_due(&mut self, now: u64) -> bool {
        if now < self.due {
            return false;
        }
        self.due = now.saturating_add(APART);
        true
    }
}

/// How often it happened, at all addresses together.
pub(crate) fn total(tallies: &Tallies, miss: Miss) -> u64 {
    let mut total = 0u64;
    for tally in tallies.rows() {
        if tally.miss == miss {
            total = total.saturating_add(tally.count);
        }
    }
    total
}

impl<N: DriverNaming + Send + Sync + 'static, R: Machine, F: Disk> Station<N, R, F> {
    /// Says each cause that was not said yet.
    pub(crate) fn say_causes(&mut self) {
        let tallies = self.driver.tallies();
        let rows = tallies.rows();
        for tally in rows.get(self.causes.seen..).unwrap_or(&[]) {
            if let Some(cause) = Cause::of(self.causes.side, tally) {
                let _ = eprintln!(self.rt; "{cause}");
            }
        }
        self.causes.seen = rows.len();
    }

    /// The same, where it is time to.
    pub(crate) fn look_for_causes(&mut self, now: u64) {
        if self.causes.is_due(now) {
            self.say_causes();
        }
    }

    /// Says why nobody subscribes, as far as it is known.
    pub(crate) fn explain_silence(&self) {
        let tallies = self.driver.tallies();
        let mut is_known = false;
        for tally in tallies.rows() {
            if let Some(cause) = Cause::of(self.causes.side, tally) {
                is_known = true;
                let _ = eprintln!(self.rt; "no subscriber: {cause}");
            }
        }
        if !is_known {
            let _ = eprintln!(self.rt; "no subscriber: nothing comes back");
        }
    }
}
