//! How a command is answered.

/// How a command is answered, as far as it counts.
#[derive(Clone, Copy, Debug, PartialEq, Eq)]
pub enum Outcome {
    /// What it asked for has this registration.
    Stands { registration: u64 },
    Done,
    /// It is refused, since nothing of that sort has the registration that it names.
    Missing,
    Refused,
}
