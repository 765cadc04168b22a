use crate::measures::Measures;
use channel_uri::{Address, Channel};

/// What a client asks to publish on.
#[derive(Debug, Drop)]
pub struct Wanted {
    pub channel: Channel,
    /// The stream id.
    pub stream: i32,
    /// Whether the log is to be the client's own.
    pub exclusive: bool,
}

/// The log of a remote publisher that is to be had here, as an image.
#[derive(Debug, Drop)]
pub struct ImageWanted {
    /// The channel that names the endpoint to which the publisher sends.
    pub channel: Channel,
    /// The stream id.
    pub stream: i32,
    /// The session id.
    pub session: i32,
    /// From where the publisher sends.
    pub address: Address,
    /// The term id with which its log began.
    pub initial_term: i32,
    /// The position at which the image begins.
    pub join: u64,
    pub measures: Measures,
}

/// What becomes of a publication that is asked for.
#[derive(Clone, Copy, Debug, PartialEq, Eq)]
pub enum Adding {
    /// The client is registered with a publication that is there.
    Join {
        /// The source number of that publication.
        source: u64,
        session: i32,
    },
    /// A log is made, with this session.
    Make {
        session: i32,
    },
}
