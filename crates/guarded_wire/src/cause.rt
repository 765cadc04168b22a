use crate::kind::Kind;

/// Why a datagram is dropped.
#[derive(Clone, Copy, Debug, PartialEq, Eq)]
pub enum Cause {
    /// It came from an address that nobody bound.
    Stranger(Kind),
    /// It is a NAK for more than a window.
    TooMuch,
    /// It is a NAK or a status message, and its address sent as many of these as it may in the time.
    TooOften(Kind),
}
