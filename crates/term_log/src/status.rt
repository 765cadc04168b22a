/// What becomes of a status message.
#[derive(Clone, Copy, Debug, PartialEq, Eq)]
pub enum Status {
    /// It is accepted; the position up to which may be sent now.
    Accepted(u64),
    /// It names a position beyond the one up to which was sent, and is dropped.
    OutOfWindow,
}
