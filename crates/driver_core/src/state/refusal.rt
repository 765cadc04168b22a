use policy_core::Verdict;

/// Why a command is refused. Where several reasons hold, the first in this order is the answer.
#[derive(Clone, Copy, Debug, PartialEq, Eq)]
pub enum Refusal {
    /// The type number is of no command.
    UnknownCommandType,
    /// The bytes are not laid out as a command of their type.
    MalformedCommand,
    /// The command names another client than the one over whose handle it came, or that client is gone.
    WrongClient,
    /// The channel's text is no channel, or not one that such a command takes.
    InvalidChannel,
    /// The client has no subscription under this registration id, whoever else may have.
    UnknownSubscription,
    /// The client has no registration with a publication under this registration id, whoever else may have.
    UnknownPublication,
    /// The client has no counter under this registration number, whoever else may have.
    UnknownCounter,
    /// The policy denies the request, by this verdict.
    Denied(Verdict),
    /// The channel says something else than the publication that it would join, or states the session of another one.
    Conflict,
    /// The command would break a limit of the driver.
    Full,
    /// The arena has no room for three terms.
    NoRoom,
}
