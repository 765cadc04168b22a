//! What a client has of a driver, or asked for.

/// What a client has, or asked for.
#[derive(Clone, Copy, Debug, PartialEq, Eq)]
pub enum Kind {
    /// A registration with a publication, whose log may have so many pages.
    Publication { pages: u64 },
    Subscription,
    Counter,
}

/// What may be removed.
#[derive(Clone, Copy, Debug, PartialEq, Eq)]
pub enum Sort {
    Publication,
    Subscription,
    Counter,
}

/// What a command removes.
#[derive(Clone, Copy, Debug, PartialEq, Eq)]
pub struct Removal {
    pub sort: Sort,
    pub registration: u64,
}

/// What a client has, or asked for by a command that is not answered yet.
#[derive(Clone, Copy, Debug, PartialEq, Eq, Drop)]
pub struct Row {
    pub client: u64,
    pub kind: Kind,
    /// The correlation id of the command that asked for it.
    pub correlation: u64,
    /// Its registration, once it is known.
    pub registration: Option<u64>,
    /// How long it counts after it was removed, in nanoseconds.
    pub linger: u64,
    /// Until when it counts, once it was removed, in nanoseconds.
    pub until: Option<u64>,
}
