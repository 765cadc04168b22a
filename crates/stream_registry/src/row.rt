use crate::measures::Measures;
use channel_uri::{Address, Channel};
use rows::Twin;

/// Where a log comes from.
#[derive(Clone, Copy, Debug, PartialEq, Eq)]
pub enum Origin {
    /// It is a publication: clients of this driver publish there.
    Published {
        /// Whether nobody else may join it.
        exclusive: bool,
        /// The moment from which on nobody was registered with it, in nanoseconds; `None` while somebody is.
        lingering_since: Option<u64>,
    },
    /// It is an image: the log of a remote publisher.
    Remote {
        /// From where the publisher sends.
        address: Address,
        /// The term id with which its log began.
        initial_term: i32,
        /// The position at which the image begins.
        join: u64,
    },
}

/// A log that is live: a publication, which all that are registered with it share, or an image.
#[derive(Debug, Drop)]
pub struct LogRow {
    /// The number by which the log is known: of a publication, the registration number of the ADD that made it.
    pub number: u64,
    /// The channel of that ADD; of an image, the one that names the endpoint to which its publisher sends.
    pub channel: Channel,
    /// The stream id.
    pub stream: i32,
    /// The session id.
    pub session: i32,
    /// The page at which the log's memory begins.
    pub place: u64,
    /// A number that is the log's own among all live publications, or among all live images.
    pub slot: u16,
    pub measures: Measures,
    pub origin: Origin,
}

/// A client's registration with a publication.
#[derive(Debug, Drop)]
pub struct Registration {
    /// The registration number.
    pub number: u64,
    /// The id of the client that it belongs to.
    pub client: u64,
    /// The channel that the client named.
    pub channel: Channel,
    /// The number of the log.
    pub source: u64,
}

/// A subscription of a client.
#[derive(Debug, Drop)]
pub struct Subscription {
    /// The registration number.
    pub number: u64,
    /// The id of the client that it belongs to.
    pub client: u64,
    pub channel: Channel,
    /// The stream id.
    pub stream: i32,
}

impl Twin for LogRow {
    fn twin(&self) -> LogRow {
        LogRow {
            number: self.number,
            channel: self.channel.copy(),
            stream: self.stream,
            session: self.session,
            place: self.place,
            slot: self.slot,
            measures: self.measures,
            origin: self.origin,
        }
    }

    fn set_from(&mut self, other: &LogRow) {
        self.number = other.number;
        self.channel.set_from(&other.channel);
        self.stream = other.stream;
        self.session = other.session;
        self.place = other.place;
        self.slot = other.slot;
        self.measures = other.measures;
        self.origin = other.origin;
    }
}

impl Twin for Registration {
    fn twin(&self) -> Registration {
        Registration {
            number: self.number,
            client: self.client,
            channel: self.channel.copy(),
            source: self.source,
        }
    }

    fn set_from(&mut self, other: &Registration) {
        self.number = other.number;
        self.client = other.client;
        self.channel.set_from(&other.channel);
        self.source = other.source;
    }
}

impl Twin for Subscription {
    fn twin(&self) -> Subscription {
        Subscription {
            number: self.number,
            client: self.client,
            channel: self.channel.copy(),
            stream: self.stream,
        }
    }

    fn set_from(&mut self, other: &Subscription) {
        self.number = other.number;
        self.client = other.client;
        self.channel.set_from(&other.channel);
        self.stream = other.stream;
    }
}
