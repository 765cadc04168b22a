/// Why nothing is done about a counter.
#[derive(Clone, Copy, Debug, PartialEq, Eq)]
pub enum CounterFault {
    /// The client has no counter of this number.
    UnknownCounter,
}
