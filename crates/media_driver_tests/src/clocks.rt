// The machine's clock, over clocks that the tests set.
use media_driver::{Clock, ClockFault, MachineClock};
use std::io;
use std::sync::atomic::{AtomicU64, Ordering};
use std::time::{self, Duration};

/// 14 November 2023, 22:13:20 UTC, in nanoseconds since 1970.
const NOVEMBER: u64 = 1_700_000_000_000_000_000;

/// A day, in nanoseconds.
const DAY: u64 = 86_400_000_000_000;

/// The first moment that no rule can name.
const END: u64 = 1 << 63;

/// The clocks of a machine, in nanoseconds. The time of day is before 1970 where it is `None`.
#[derive(Drop)]
struct Hands {
    time_of_day: Option<AtomicU64>,
    steady: AtomicU64,
}

impl Hands {
    fn at(time_of_day: Option<u64>, steady: u64) -> Hands {
        Hands {
            time_of_day: match time_of_day {
                Some(time) => Some(AtomicU64::new(time)),
                None => None,
            },
            steady: AtomicU64::new(steady),
        }
    }

    fn set_time_of_day(&self, nanoseconds: u64) {
        if let Some(time) = &self.time_of_day {
            time.store(nanoseconds, Ordering::SeqCst);
        }
    }

    fn set_steady(&self, nanoseconds: u64) {
        self.steady.store(nanoseconds, Ordering::SeqCst);
    }
}

impl time::Clock for Hands {
    fn monotonic(&self) -> io::Result<Duration> {
        Ok(Duration::from_nanos(self.steady.load(Ordering::SeqCst)))
    }

    fn since_1970(&self) -> io::Result<Duration> {
        match &self.time_of_day {
            Some(time) => Ok(Duration::from_nanos(time.load(Ordering::SeqCst))),
            None => Err(io::Error::from(io::ErrorKind::InvalidData)),
        }
    }
}

/// Why no clock begins at that time of day.
fn fault_at(time_of_day: Option<u64>) -> Option<ClockFault> {
    let hands = Hands::at(time_of_day, 5);
    match MachineClock::start(&hands) {
        Ok(_) => None,
        Err(fault) => Some(fault),
    }
}

/// Whether a clock goes on by the steady clock alone, although the time of day is set back by a day, and then on.
fn goes_on() -> bool {
    let hands = Hands::at(Some(NOVEMBER), 5_000);
    let Ok(clock) = MachineClock::start(&hands) else {
        return false;
    };
    let at_first = clock.now();
    hands.set_steady(5_001);
    hands.set_time_of_day(NOVEMBER - DAY);
    let next = clock.now();
    hands.set_steady(1_000_005_000);
    hands.set_time_of_day(NOVEMBER + DAY);
    let later = clock.now();
    (at_first, next, later) == (NOVEMBER, NOVEMBER + 1, NOVEMBER + 1_000_000_000)
}

/// Whether no moment is before the one at which a clock began, and none past the greatest `u64`.
fn stays_within() -> bool {
    let hands = Hands::at(Some(NOVEMBER), 5_000);
    let Ok(clock) = MachineClock::start(&hands) else {
        return false;
    };
    hands.set_steady(4_999);
    let earliest = clock.now();
    hands.set_steady(u64::MAX);
    (earliest, clock.now()) == (NOVEMBER, u64::MAX)
}

#[test]
fn moments_go_on_by_the_steady_clock(rt: HostRuntime) {
    assert!(rt; goes_on() & stays_within());
}

#[test]
fn a_time_that_no_rule_can_name(rt: HostRuntime) {
    let before = fault_at(None) == Some(ClockFault::Unread);
    let past = fault_at(Some(END)) == Some(ClockFault::PastEnd);
    let within = fault_at(Some(END - 1)).is_none() & fault_at(Some(0)).is_none();
    assert!(rt; before & past & within);
}
