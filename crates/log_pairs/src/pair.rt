/// A subscription that reads a log, and how far it has read.
#[derive(Clone, Copy, Debug, PartialEq, Eq)]
pub struct Pair {
    /// The subscription's registration number.
    pub subscription: u64,
    /// The position up to which it has read.
    pub position: u64,
}
