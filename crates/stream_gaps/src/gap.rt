ghost use Rattle.stream_gaps.specs.Gaps.{gap_after, gap_text, not_retransmitted_text, not_taken_text};
ghost use Rattle.std.specs.Prelude.{◌≡◌, Some};

use std::fmt;

/// A part of a stream that a subscriber did not get.
#[derive(Clone, Copy, Debug, PartialEq, Eq)]
pub struct Gap {
    pub session: i32,
    /// The position at which it begins.
    pub from: u64,
    /// How many bytes of the stream it has, frame headers and padding among them.
    pub bytes: u64,
}

impl Gap {
    /// What is between the position up to which a session was read and the one from which it is read on. `None` where it was not
    /// read before, or goes on no further than that.
    pub fn after(session: i32, read_to: Option<u64>, position: u64) -> Option<Gap>
        ensures { result ≡ gap_after session read_to position }
    {
        let from = read_to?;
        if from < position {
            Some(Gap {
                session,
                from,
                bytes: position - from,
            })
        } else {
            None
        }
    }
}

impl fmt::Display for Gap {
    ghost output = { λ gap. Some (gap_text gap) };

    fn fmt<W: fmt::Write>(&self, f: &mut fmt::Formatter<W>) -> fmt::Result {
        let Gap {
            session,
            from,
            bytes,
        } = self;
        write!(f, "gap: session {session}, {bytes} bytes from {from} lost")
    }
}

/// Bytes of a stream that a subscriber lacks, and that do not come although it asks for them.
#[derive(Clone, Copy, Debug, PartialEq, Eq)]
pub struct NotRetransmitted {
    pub session: i32,
    /// The position at which they begin.
    pub from: u64,
}

impl fmt::Display for NotRetransmitted {
    ghost output = { λ rest. Some (not_retransmitted_text rest) };

    fn fmt<W: fmt::Write>(&self, f: &mut fmt::Formatter<W>) -> fmt::Result {
        let NotRetransmitted { session, from } = self;
        write!(
            f,
            "gap: session {session}, bytes from {from} not retransmitted"
        )
    }
}

/// Messages that were sent and that nobody took.
#[derive(Clone, Copy, Debug, PartialEq, Eq)]
pub struct NotTaken {
    pub messages: u64,
    /// The position up to which all was taken.
    pub from: u64,
}

impl fmt::Display for NotTaken {
    ghost output = { λ rest. Some (not_taken_text rest) };

    fn fmt<W: fmt::Write>(&self, f: &mut fmt::Formatter<W>) -> fmt::Result {
        let NotTaken { messages, from } = self;
        write!(f, "not taken: {messages} messages from position {from}")
    }
}
