ghost use Rattle.piped_messages.specs.Figures.{losses_text, received_text, sent_text};
ghost use Rattle.std.specs.Prelude.{◌≡◌, Some};

use std::fmt;

/// What was lost so far, and made good.
#[derive(Clone, Copy, Debug, PartialEq, Eq)]
pub struct Losses {
    /// How many NAKs came, or went.
    pub naks: u64,
    /// How many datagrams were sent again.
    pub resent: u64,
    /// How many datagrams came that are none of the protocol.
    pub bad: u64,
    /// How many sends and reads failed.
    pub failed: u64,
}

impl fmt::Display for Losses {
    ghost output = { λ losses. Some (losses_text losses) };

    fn fmt<W: fmt::Write>(&self, f: &mut fmt::Formatter<W>) -> fmt::Result {
        let Losses {
            naks,
            resent,
            bad,
            failed,
        } = self;
        write!(f, "naks {naks} resent {resent} bad {bad} failed {failed}")
    }
}

/// What a publisher sent so far.
#[derive(Clone, Copy, Debug, PartialEq, Eq)]
pub struct Sent {
    /// How many messages the log took.
    pub messages: u64,
    /// How many bytes those have.
    pub bytes: u64,
    /// The position after the last of them.
    pub position: u64,
    /// Up to which position a subscriber has taken them.
    pub consumed: u64,
    pub losses: Losses,
}

impl fmt::Display for Sent {
    ghost output = { λ sent. Some (sent_text sent) };

    fn fmt<W: fmt::Write>(&self, f: &mut fmt::Formatter<W>) -> fmt::Result {
        let Sent {
            messages,
            bytes,
            position,
            consumed,
            losses,
        } = self;
        write!(
            f,
            "sent {messages} messages {bytes} bytes position {position} consumed {consumed} {losses}"
        )
    }
}

/// What a subscriber received so far.
#[derive(Clone, Copy, Debug, PartialEq, Eq)]
pub struct Received {
    /// How many messages came.
    pub messages: u64,
    /// How many bytes those have.
    pub bytes: u64,
    /// The position after the last fragment.
    pub position: u64,
    /// How many streams it reads now.
    pub images: u64,
    pub losses: Losses,
}

impl fmt::Display for Received {
    ghost output = { λ received. Some (received_text received) };

    fn fmt<W: fmt::Write>(&self, f: &mut fmt::Formatter<W>) -> fmt::Result {
        let Received {
            messages,
            bytes,
            position,
            images,
            losses,
        } = self;
        write!(
            f,
            "received {messages} messages {bytes} bytes position {position} images {images} {losses}"
        )
    }
}
