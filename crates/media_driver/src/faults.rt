//! Why a call is refused.

ghost use Rattle.media_driver.specs.declared.faults.MakeFault.TheVariants as make;
ghost use Rattle.media_driver.specs.declared.faults.PushFault.TheVariants as push;
ghost use Rattle.media_driver.specs.declared.faults.StartFault.TheVariants as start;
ghost use Rattle.media_driver.specs.Faults.{clock_text, make_text, start_text};
ghost use Rattle.std.specs.Prelude.{◌≡◌, Some};

use policy_core::Verdict;
use policy_text::PolicyFault;
use std::alloc::AllocError;
use std::fmt;
use std::thread::SpawnError;

/// Why no driver is made.
#[derive(Clone, Copy, Debug, PartialEq, Eq)]
pub enum MakeFault {
    NoMemory,
    /// A reader's place was not given by the published registry.
    NoPass,
}

/// Why no clock of a driver begins.
#[derive(Clone, Copy, Debug, PartialEq, Eq)]
pub enum ClockFault {
    /// The machine's time can't be read, or is before 1970.
    Unread,
    /// The machine's time is 2^63 nanoseconds after 1970, which is in the year 2262, or later.
    PastEnd,
}

/// Why a driver does not start.
#[derive(Clone, Copy, Debug, PartialEq, Eq)]
pub enum StartFault {
    NoMemory,
    /// The system makes no thread.
    NoThread,
    /// The driver's clock does not begin.
    Clock(ClockFault),
}

/// Why a client does not attach.
#[derive(Clone, Copy, Debug, PartialEq, Eq)]
pub enum AttachFault {
    /// 64 clients are out, or as many are attached.
    Full,
    /// The driver was ended by a client that may do so.
    Stopped,
    NoMemory,
}

/// Why a policy is not put in force.
#[derive(Clone, Copy, Debug, PartialEq, Eq)]
pub enum ReloadFault {
    /// The text is no policy.
    Policy(PolicyFault),
    /// There would be too many pairs under the policy.
    Full,
    NoMemory,
}

/// Why a command does not reach the driver.
#[derive(Clone, Copy, Debug, PartialEq, Eq)]
pub enum PushFault {
    /// The queue of commands is full, or 256 of the client's own wait there: its share.
    QueueFull,
    NoMemory,
}

/// Why a message is not taken.
#[derive(Clone, Copy, Debug, PartialEq, Eq)]
pub enum OfferFault {
    /// The client has no such registration, or its log is closed (-4).
    Closed,
    /// The policy denies it, by this verdict.
    Denied(Verdict),
    TooLong,
    /// Nobody is there to read (-1).
    NotConnected,
    /// The log is at its greatest position (-5).
    MaxPosition,
    /// The slowest reader has too much left to read (-2).
    BackPressured,
    /// The rest of the term was too short and is passed: offer again (-3).
    AdminAction,
    /// The registry gave no look, and nothing is changed.
    NoLook,
}

/// Why a poll gives nothing.
#[derive(Clone, Copy, Debug, PartialEq, Eq)]
pub enum PollFault {
    /// The subscription does not read that log.
    Gone,
    /// The policy denies it, by this verdict.
    Denied(Verdict),
    /// The registry gave no look, and nothing is changed.
    NoLook,
    NoMemory,
}

/// Why it is not shown how far a log has come.
#[derive(Clone, Copy, Debug, PartialEq, Eq)]
pub enum PositionFault {
    /// The client has no such registration or subscription, or there is no such log of it that is open.
    Closed,
    /// The registry gave no look, and nothing is changed.
    NoLook,
}

/// Why counters are not shown.
#[derive(Clone, Copy, Debug, PartialEq, Eq)]
pub enum LookFault {
    /// The registry gave no look, and nothing is changed.
    NoLook,
    NoMemory,
}

impl From<AllocError> for MakeFault {
    ghost from_gives = { λ _ fault. fault ≡ make.NoMemory };

    fn from(_error: AllocError) -> MakeFault {
        MakeFault::NoMemory
    }
}

impl From<AllocError> for StartFault {
    ghost from_gives = { λ _ fault. fault ≡ start.NoMemory };

    fn from(_error: AllocError) -> StartFault {
        StartFault::NoMemory
    }
}

impl From<AllocError> for PushFault {
    ghost from_gives = { λ _ fault. fault ≡ push.NoMemory };

    fn from(_error: AllocError) -> PushFault {
        PushFault::NoMemory
    }
}

impl<F: Drop> From<SpawnError<F>> for StartFault {
    ghost from_gives = { λ _ fault. fault ≡ start.NoThread };

    fn from(_refused: SpawnError<F>) -> StartFault {
        StartFault::NoThread
    }
}

impl fmt::Display for MakeFault {
    ghost output = { λ fault. Some (make_text fault) };

    fn fmt<W: fmt::Write>(&self, f: &mut fmt::Formatter<W>) -> fmt::Result {
        match self {
            MakeFault::NoMemory => f.write_str("no memory"),
            MakeFault::NoPass => f.write_str("no pass"),
        }
    }
}

impl fmt::Display for ClockFault {
    ghost output = { λ fault. Some (clock_text fault) };

    fn fmt<W: fmt::Write>(&self, f: &mut fmt::Formatter<W>) -> fmt::Result {
        match self {
            ClockFault::Unread => f.write_str("the time is not known, or before 1970"),
            ClockFault::PastEnd => f.write_str("the time is past 2^63 nanoseconds since 1970"),
        }
    }
}

impl fmt::Display for StartFault {
    ghost output = { λ fault. Some (start_text fault) };

    fn fmt<W: fmt::Write>(&self, f: &mut fmt::Formatter<W>) -> fmt::Result {
        match self {
            StartFault::NoMemory => f.write_str("no memory"),
            StartFault::NoThread => f.write_str("no thread"),
            StartFault::Clock(fault) => fault.fmt(f),
        }
    }
}
