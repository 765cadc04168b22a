use driver_world::Reading;

/// A step of two worlds, of which the second is given what the first sent.
#[derive(Debug, Drop)]
pub enum PairStep {
    /// A step of the first. It takes any datagrams.
    A(Reading),
    /// A step of the second, by which nothing comes to it: neither a datagram, nor a SETUP as an event.
    B(Reading),
    /// A datagram that the first sent comes to the second: to the address that it was sent to, from the address that the
    /// first sends from.
    Deliver {
        /// Which one, counted from 0, of all that the first sent so far, to any address. It may have come before, and may come
        /// again.
        sent: u64,
        /// The moment at which it comes, in nanoseconds.
        now: u64,
        /// The number of the registry that its actor looks at, as in a [`Reading`].
        view: Option<u64>,
    },
}
