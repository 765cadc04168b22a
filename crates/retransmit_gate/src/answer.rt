/// What becomes of a NAK.
#[derive(Clone, Copy, Debug, PartialEq, Eq)]
pub enum Answer {
    /// The frames that its range meets are sent again.
    Resend,
    /// The range meets one that was sent again, not longer ago than the linger.
    Lingering,
    /// As many ranges linger as the gate has room for.
    Busy,
    /// The range does not lie within the positions that may be sent again.
    OutOfWindow,
    /// The range has no position.
    Empty,
}
