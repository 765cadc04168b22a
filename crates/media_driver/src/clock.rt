//! The machine's clock.

ghost use Rattle.media_driver.specs.Clocks.{Begins, Fails, Shows, moment_at};
ghost use Rattle.std.specs.Duration.{as_nanos};
ghost use Rattle.std.specs.Prelude.{◌≡◌, ℕ, IfErr, IfOk, MatchOption, ⊤};

use crate::faults::ClockFault;
use media_agents::Clock;
use std::time::{self, Duration};

/// The two clocks of a machine.
pub trait MachineTime {
    /// A clock may not be read.
    ghost unread: { Self → Type 0 };

    /// Wall time may be so many nanoseconds since 1970.
    ghost wall: { Self → ℕ → Type 0 };

    /// The steady clock may stand at so many nanoseconds.
    ghost steady: { Self → ℕ → Type 0 };

    /// Wall time since 1970. It may be set, so it may go back. `None` where it can't be read, or is before 1970.
    fn wall(&self) -> Option<Duration>
        ensures { MatchOption result (unread self.now) (λ since. wall self.now (as_nanos since)) };

    /// The time since any beginning, by a clock that nobody sets. `None` where it can't be read.
    fn steady(&self) -> Option<Duration>
        ensures { MatchOption result (unread self.now) (λ since. steady self.now (as_nanos since)) };
}

/// Of what a machine's clocks stand at nothing is known.
impl<C: time::Clock> MachineTime for C {
    ghost unread = { λ _. ⊤ };

    ghost wall = { λ _ _. ⊤ };

    ghost steady = { λ _ _. ⊤ };

    fn wall(&self) -> Option<Duration> {
        self.since_1970().ok()
    }

    fn steady(&self) -> Option<Duration> {
        self.monotonic().ok()
    }
}

/// Wall time as it was once, and what the machine's steady clock went on since.
#[derive(Clone, Copy, Debug)]
pub struct MachineClock<C> {
    machine: C,
    /// Wall time as it began, in nanoseconds since 1970.
    wall: u64,
    /// Where the steady clock stood then.
    began: Duration,
}

/// The moment, in nanoseconds since 1970.
fn moment_at(wall: u64, began: Duration, reading: Duration) -> u64
    ensures { result ≡ moment_at wall (as_nanos began) (as_nanos reading) }
{
    let since = reading.saturating_sub(began).as_nanos();
    wall.saturating_add(since.min(u64::MAX as u128) as u64)
}

impl<C: MachineTime + Drop> MachineClock<C> {
    /// A clock begins: wall time is read, this once.
    ///
    /// # Errors
    /// Where wall time can't be read or is 2^63 nanoseconds or more.
    pub fn start(machine: C) -> Result<MachineClock<C>, ClockFault>
        ensures begins { IfOk result (λ clock. Begins C.wall C.steady machine clock) }
        ensures fails { IfErr result (λ fault. Fails C.unread C.wall machine fault) }
    {
        let (Some(wall), Some(began)) = (machine.wall(), machine.steady()) else {
            return Err(ClockFault::Unread);
        };
        let wall = wall.as_nanos();
        if wall >= 1 << 63 {
            return Err(ClockFault::PastEnd);
        }
        Ok(MachineClock {
            machine,
            wall: wall as u64,
            began,
        })
    }
}

impl<C: MachineTime> Clock for MachineClock<C> {
    fn now(&self) -> u64
        ensures { Shows C.unread C.steady self.now result }
    {
        match self.machine.steady() {
            Some(reading) => moment_at(self.wall, self.began, reading),
            None => self.wall,
        }
    }
}
