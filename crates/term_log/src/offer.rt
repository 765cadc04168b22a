/// What becomes of a message that is offered to a log.
#[derive(Clone, Copy, Debug, PartialEq, Eq)]
pub enum Offer {
    /// It is appended; the position after it.
    At(u64),
    /// It is longer than an eighth of a term.
    TooLong,
    /// It would end past the greatest position.
    MaxPosition,
    /// The tail has reached the limit.
    BackPressured,
    /// The rest of the term is too short for it, and was filled with a pad: to be offered again.
    AdminAction,
}
