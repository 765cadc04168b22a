//! How much the clients of a principal may have at once.

/// How much the clients of a principal may have at once.
#[derive(Clone, Copy, Debug, PartialEq, Eq)]
pub struct Bounds {
    /// Registrations with publications, and those that linger.
    pub publications: u64,
    /// Pages of 4,096 bytes of their logs.
    pub pages: u64,
    pub subscriptions: u64,
    pub counters: u64,
    /// Commands that are not answered.
    pub commands: u64,
}

/// Which bound something would pass.
#[derive(Clone, Copy, Debug, PartialEq, Eq)]
pub enum Bound {
    Publications,
    Pages,
    Subscriptions,
    Counters,
    Commands,
}
