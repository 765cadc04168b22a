ghost use Rattle.wire_causes.specs.Causes.{cause_of, cause_text, is_said, what_of, why_of};
ghost use Rattle.std.specs.Prelude.{◌≡◌, Some};

use drop_tallies::{Miss, Tally};
use std::fmt;

/// For what a driver is there.
#[derive(Clone, Copy, Debug, PartialEq, Eq)]
pub enum Side {
    /// It sends to the addresses that it is given.
    Sends,
    /// It sends to those that join.
    Learns,
    /// It receives.
    Receives,
    /// It sends to whom its clients name, and to those that join, and it receives.
    Serves,
}

/// Why something on the wire comes to nothing.
#[derive(Clone, Copy, Debug, PartialEq, Eq)]
pub struct Cause {
    pub side: Side,
    /// What the driver counts of it.
    pub tally: Tally,
}

/// Whether it keeps messages back. What a driver that receives gets of no stream is not: a SETUP of it comes too, and is
/// counted by itself; and what is sent again lately, or enough of it, is on its way.
fn is_said(side: Side, miss: Miss) -> bool
    ensures { result ≡ is_said side miss }
{
    match miss {
        Miss::Empty | Miss::Lingering | Miss::Busy => false,
        Miss::NoStream => match side {
            Side::Receives | Side::Serves => false,
            Side::Sends | Side::Learns => true,
        },
        _ => true,
    }
}

/// What comes to nothing, and whether the address is that from where it came, or another one.
fn what_of(side: Side, miss: Miss) -> &'static str
    ensures { result.now ≡ what_of side miss }
{
    match miss {
        Miss::Withheld => "withheld from",
        Miss::Unsent => "cannot send to",
        Miss::Unheard => "cannot read at",
        Miss::Unread | Miss::Stranger | Miss::NoMemory => "datagram from",
        Miss::NoStream | Miss::OutOfWindow => "NAK or status message from",
        Miss::Denied => match side {
            Side::Learns | Side::Serves => "NAK or status message from",
            Side::Sends | Side::Receives => "NAK from",
        },
        Miss::Empty | Miss::Lingering | Miss::Busy => "NAK from",
        Miss::Full => "status message from",
        Miss::QueueFull
        | Miss::BadSetup
        | Miss::NoSubscription
        | Miss::Unimaged
        | Miss::TooMany
        | Miss::NoRoom => "SETUP from",
    }
}

/// Why, where no verdict says it.
fn why_of(miss: Miss) -> &'static str
    ensures { result.now ≡ why_of miss }
{
    match miss {
        Miss::Unread => ": none of the protocol",
        Miss::NoStream => ": of no stream that is here",
        Miss::Stranger => ": of a stream from another address",
        Miss::OutOfWindow => ": out of the window",
        Miss::Full => ": no room for one more destination",
        Miss::NoMemory => ": no memory",
        Miss::QueueFull => ": too many at once",
        Miss::BadSetup => ": unsound",
        Miss::NoSubscription => ": for no subscription",
        Miss::TooMany => ": a limit of the driver is reached",
        Miss::NoRoom => ": no room for its log",
        _ => "",
    }
}

impl Cause {
    /// What a row of a driver's tallies is the cause of; `None` where it keeps no message back.
    pub fn of(side: Side, tally: &Tally) -> Option<Cause>
        ensures { result ≡ cause_of side tally.now }
    {
        if is_said(side, tally.miss) {
            Some(Cause {
                side,
                tally: *tally,
            })
        } else {
            None
        }
    }
}

impl fmt::Display for Cause {
    ghost output = { λ cause. Some (cause_text cause) };

    fn fmt<W: fmt::Write>(&self, f: &mut fmt::Formatter<W>) -> fmt::Result {
        let Tally {
            miss,
            verdict,
            address,
            ..
        } = self.tally;
        let what = what_of(self.side, miss);
        match verdict {
            Some(verdict) => write!(f, "{what} {address}: {verdict}"),
            None => {
                let why = why_of(miss);
                write!(f, "{what} {address}{why}")
            }
        }
    }
}
