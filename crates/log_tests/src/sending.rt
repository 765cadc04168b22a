//! When a log is connected and may be sent, and when SETUPs and heartbeats are due.

ghost use Rattle.std.specs.Prelude.{◌≡◌, []};

use crate::filling::follow;
use crate::stepping::send;
use term_log::{Offer, Status, TermLog};

/// For how long a log is connected after a status message, in nanoseconds.
const TIMEOUT: u64 = 5_000_000_000;

/// How far SETUPs, and heartbeats, are apart, in nanoseconds.
const INTERVAL: u64 = 100_000_000;

/// What is done with a log, and what it shows. Moments come first.
#[derive(Clone, Copy)]
pub(crate) enum Step {
    /// A status message of this position and window is answered so.
    Status(u64, u64, u32, Status),
    /// A message of bytes 1, so many of them, is answered so.
    Offers(usize, Offer),
    /// A datagram of so many bytes is sent.
    Sends(usize),
    /// All there is is sent.
    Follows,
    Elicits,
    SetupSent(u64),
    DatagramSent(u64),
    Connected(u64, u64),
    MaySend(u32),
    StandsAt(u64),
    EndsAt(u64),
    SetupIsDue(u64),
    HeartbeatIsDue(u64),
}

fn offers(log: &mut TermLog, size: usize, answer: Offer) -> bool {
    let message = [1; 65];
    log.offer(&message[..size.min(65)]) == answer
}

fn goes(log: &mut TermLog, step: Step) -> bool {
    match step {
        Step::Status(now, position, window, answer) => log.status(now, position, window) == answer,
        Step::Offers(size, answer) => offers(log, size, answer),
        Step::Sends(size) => send(log) == size,
        Step::Follows => {
            follow(log);
            true
        }
        Step::Elicits => {
            log.elicit();
            true
        }
        Step::SetupSent(now) => {
            log.setup_sent(now);
            true
        }
        Step::DatagramSent(now) => {
            log.datagram_sent(now);
            true
        }
        Step::Connected(now, timeout) => log.connected(now, timeout),
        Step::MaySend(budget) => log.send_budget() == budget,
        Step::StandsAt(position) => log.sender_position() == position,
        Step::EndsAt(position) => log.tail() == position,
        Step::SetupIsDue(now) => log.setup_due(now, TIMEOUT, INTERVAL),
        Step::HeartbeatIsDue(now) => log.heartbeat_due(now, INTERVAL),
    }
}

/// Whether each step is so, or not, as it says.
pub(crate) fn are_taken(log: &mut TermLog, steps: &[(Step, bool)]) -> bool {
    for &(step, wanted) in steps {
        if goes(log, step) != wanted {
            return false;
        }
    }
    true
}

// The first status message connects a log over UDP, and lets its sender send.
pub(crate) static OPENS: [(Step, bool); 10] = [
    (Step::Connected(0, TIMEOUT), false),
    (Step::MaySend(0), true),
    (Step::Status(0, 0, 32_768, Status::Accepted(32_768)), true),
    (Step::Connected(0, TIMEOUT), true),
    (Step::MaySend(1408), true),
    (Step::Offers(1, Offer::At(64)), true),
    (Step::StandsAt(0), true),
    (Step::Sends(64), true),
    (Step::StandsAt(64), true),
    (Step::EndsAt(64), true),
];

// Of a log that begins at 65440.
pub(crate) static LIMITS: [(Step, bool); 17] = [
    // A status message beyond what was sent changes nothing, no limit and no moment.
    (Step::Status(0, 65_441, 32_768, Status::OutOfWindow), true),
    (
        Step::Status(0, u64::MAX, u32::MAX, Status::OutOfWindow),
        true,
    ),
    (Step::Connected(0, TIMEOUT), false),
    (Step::MaySend(0), true),
    (Step::Status(0, 65_440, 32, Status::Accepted(65_472)), true),
    (Step::Status(7, 65_472, 64, Status::OutOfWindow), true),
    (Step::Connected(TIMEOUT, TIMEOUT), true),
    (Step::Connected(TIMEOUT + 1, TIMEOUT), false),
    (Step::MaySend(32), true),
    // The sender comes to stand past its limit of 65472, by a pad, and then sends nothing.
    (Step::Offers(65, Offer::AdminAction), true),
    (Step::Follows, true),
    (Step::StandsAt(65_536), true),
    (Step::MaySend(0), true),
    // The limit is the greatest that any status message allowed, of whose window half a term counts at most.
    (
        Step::Status(0, 65_440, 32_769, Status::Accepted(98_208)),
        true,
    ),
    (
        Step::Status(0, 65_536, u32::MAX, Status::Accepted(98_304)),
        true,
    ),
    (Step::Status(0, 65_536, 0, Status::Accepted(98_304)), true),
    (Step::MaySend(1408), true),
];

// A log over UDP is connected up to the timeout after the latest status message, and by no wish for a SETUP.
pub(crate) static CONNECTS: [(Step, bool); 11] = [
    (Step::Elicits, true),
    (Step::Connected(0, u64::MAX), false),
    (Step::Status(20, 0, 0, Status::Accepted(0)), true),
    (Step::Connected(TIMEOUT + 20, TIMEOUT), true),
    (Step::Connected(TIMEOUT + 21, TIMEOUT), false),
    (Step::Connected(0, 0), true),
    (Step::Status(10, 0, 0, Status::Accepted(0)), true),
    (Step::Connected(TIMEOUT + 20, TIMEOUT), true),
    (Step::Connected(TIMEOUT + 21, TIMEOUT), false),
    (Step::Status(u64::MAX, 0, 0, Status::Accepted(0)), true),
    (Step::Connected(u64::MAX, 0), true),
];

pub(crate) static SETUPS_AND_HEARTBEATS: [(Step, bool); 23] = [
    (Step::SetupIsDue(0), true),
    // A heartbeat is due past its interval since the last datagram of any kind; moments never go back.
    (Step::HeartbeatIsDue(0), true),
    (Step::SetupSent(0), true),
    (Step::HeartbeatIsDue(INTERVAL), false),
    (Step::HeartbeatIsDue(INTERVAL + 1), true),
    (Step::DatagramSent(50), true),
    (Step::HeartbeatIsDue(INTERVAL + 50), false),
    (Step::HeartbeatIsDue(INTERVAL + 51), true),
    (Step::DatagramSent(10), true),
    (Step::HeartbeatIsDue(INTERVAL + 50), false),
    (Step::HeartbeatIsDue(INTERVAL + 51), true),
    // A SETUP, of which the last was at 0, is due past its interval where nobody is connected, and where one was asked for.
    // One answers all who asked.
    (Step::SetupIsDue(INTERVAL), false),
    (Step::SetupIsDue(INTERVAL + 1), true),
    (Step::Status(0, 0, 0, Status::Accepted(0)), true),
    (Step::SetupIsDue(TIMEOUT), false),
    (Step::SetupIsDue(TIMEOUT + 1), true),
    (Step::Elicits, true),
    (Step::Elicits, true),
    (Step::DatagramSent(0), true),
    (Step::SetupIsDue(0), true),
    (Step::SetupSent(TIMEOUT), true),
    (Step::SetupIsDue(TIMEOUT + INTERVAL), false),
    (Step::SetupIsDue(TIMEOUT + INTERVAL + 1), true),
];

// A log over IPC is connected while it has a pair, whatever status messages say.
pub(crate) fn connects_by_pairs(log: &mut TermLog) -> bool
    requires { log.old.pairs ≡ [] }
{
    let status = (log.status(0, 0, 0) == Status::Accepted(0)) & !log.connected(0, TIMEOUT);
    let joined = (log.join_pair(1) == 0) & log.connected(u64::MAX, 0);
    log.leave_pair(1);
    status & joined & !log.connected(0, TIMEOUT)
}
