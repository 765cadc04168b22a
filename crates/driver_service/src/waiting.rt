//! What waits for something that the driver does.

use crate::seat::Pauses;
use std::time::Clock;

/// How long a request may wait at most, in nanoseconds.
const LONGEST: u64 = 1_000_000_000;

/// For how long a pause lasts at most of a wait for room in a log, in nanoseconds, at first and after a while. Where the room
/// comes by a status message of another host, nobody ends the pause.
const NAP: u64 = 1_000_000;

const LATER_NAP: u64 = 5_000_000;

/// How long it is until the later ones, in nanoseconds.
const NAPPING: u64 = 100_000_000;

/// A wait that ends at a moment.
#[derive(Clone, Copy)]
pub(crate) struct Waiting {
    /// In nanoseconds of the machine's clock; `None` until the first pause.
    end: Option<u64>,
    wait: u64,
    paused: u32,
    /// Whether it is for room in a log.
    naps: bool,
}

/// The machine's clock, in nanoseconds.
fn now<R: Clock>(rt: &R) -> u64 {
    match rt.monotonic() {
        Ok(since) => since.as_nanos().min(u64::MAX as u128) as u64,
        Err(_) => 0,
    }
}

impl Waiting {
    /// A wait of so many milliseconds, a second at most, for something that ends a pause as it comes.
    pub(crate) fn new(milliseconds: u32) -> Waiting {
        Waiting {
            end: None,
            wait: u64::from(milliseconds)
                .saturating_mul(1_000_000)
                .min(LONGEST),
            paused: 0,
            naps: false,
        }
    }

    /// A wait of so many milliseconds, a second at most, for room in a log.
    pub(crate) fn for_room(milliseconds: u32) -> Waiting {
        Waiting {
            naps: true,
            ..Waiting::new(milliseconds)
        }
    }

    /// For how long it pauses at most, where it has so long left, in nanoseconds.
    fn longest(&self, left: u64) -> u64 {
        if !self.naps {
            left
        } else if self.wait.saturating_sub(left) < NAPPING {
            left.min(NAP)
        } else {
            left.min(LATER_NAP)
        }
    }

    /// Whether it is over. If not, others went on for a while.
    pub(crate) fn is_over<R: Clock, P: Pauses>(&mut self, rt: &R, pauses: &mut P) -> bool {
        if self.wait == 0 {
            return true;
        }
        let at = now(rt);
        let end = self.end.unwrap_or(at.saturating_add(self.wait));
        self.end = Some(end);
        if at < end && pauses.pause(self.paused, self.longest(end - at)) {
            self.paused = self.paused.saturating_add(1);
            return false;
        }
        true
    }
}
