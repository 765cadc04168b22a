use byte_strings::Bytes;
use driver_core::{Address, Event};

/// A step of one of the actors of a driver. Moments are nanoseconds.
#[derive(Debug, Drop)]
pub enum Step {
    /// The conductor takes an event.
    Conductor(Event),
    /// A datagram came: a SETUP for the conductor, data and heartbeats for the receiver, NAKs and status messages for the
    /// sender.
    Packet {
        now: u64,
        /// The address that it came to.
        local: Address,
        /// The address that it is from.
        from: Address,
        bytes: Bytes,
    },
    /// A client offers a message to the log that its registration is with.
    Offer {
        now: u64,
        client: u64,
        /// The number of the registration.
        registration: u64,
        message: Bytes,
    },
    /// A client polls a log by one of its subscriptions.
    Poll {
        now: u64,
        client: u64,
        /// The number of the subscription.
        subscription: u64,
        /// The source number of the log.
        source: u64,
        /// How many fragments it takes at most.
        limit: u32,
    },
    /// The sender has a turn with a publication: it sends one datagram, if one is due.
    Send {
        now: u64,
        /// The source number of the publication.
        source: u64,
    },
    /// The receiver has a turn with an image: it reports to the image's publisher what is due.
    Image {
        now: u64,
        /// The source number of the image.
        source: u64,
    },
    /// A client looks at the counters that the policy in force shows it.
    List {
        now: u64,
        client: u64,
    },
    /// A client looks at the counter of this number.
    Value {
        now: u64,
        client: u64,
        number: u64,
    },
}
