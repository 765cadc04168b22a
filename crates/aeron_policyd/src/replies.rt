//! What a client is answered, and lines that are printed.

use crate::fault::Fault;
use driver_core::{Refusal, Reply};
use media_driver::ClientReply;
use std::fmt;

/// A subscription or a publication that stands.
#[derive(Clone, Copy)]
pub(crate) struct Ready {
    pub(crate) registration: u64,
    /// The session of a publication.
    pub(crate) session: Option<i32>,
}

/// What a command that adds a subscription or a publication is answered.
#[derive(Clone, Copy)]
pub(crate) enum Answered {
    Ready(Ready),
    Refused(Refusal),
}

/// A refusal in words: the verdict's, or the code's.
#[derive(Clone, Copy, Debug)]
pub struct RefusalText(pub Refusal);

impl fmt::Display for RefusalText {
    fn fmt<W: fmt::Write>(&self, f: &mut fmt::Formatter<W>) -> fmt::Result {
        match self.0 {
            Refusal::Denied(verdict) => write!(f, "{verdict}"),
            refusal => f.write_str(refusal.code().text().unwrap_or("")),
        }
    }
}

/// What a reply says of the command of this correlation id; `None` where it is of something else.
pub(crate) fn answer_in(reply: &ClientReply, command: u64) -> Result<Option<Answered>, Fault> {
    let (correlation, answered) = match reply {
        ClientReply::Of(
            Reply::SubscriptionReady {
                correlation,
                registration,
            },
        ) => (
            *correlation,
            Answered::Ready(Ready {
                registration: *registration,
                session: None,
            }),
        ),
        ClientReply::Of(
            Reply::PublicationReady {
                correlation,
                registration,
                session,
                ..
            },
        ) => (
            *correlation,
            Answered::Ready(Ready {
                registration: *registration,
                session: Some(*session),
            }),
        ),
        ClientReply::Of(Reply::OperationSuccess { correlation }) => (
            *correlation,
            Answered::Ready(Ready {
                registration: *correlation,
                session: None,
            }),
        ),
        ClientReply::Of(
            Reply::Error {
                correlation,
                refusal,
            },
        ) => (*correlation, Answered::Refused(*refusal)),
        ClientReply::NoMemory { correlation } if *correlation == command => {
            return Err(Fault::NO_MEMORY);
        }
        _ => return Ok(None),
    };
    Ok(if correlation == command {
        Some(answered)
    } else {
        None
    })
}

/// A line is printed. What can't be written ends the program.
pub(crate) fn say<R: Print>(rt: &R, line: &str) -> Result<(), Fault> {
    match rt.println(line) {
        Ok(()) => Ok(()),
        Err(_) => Err(Fault::WRITE),
    }
}
