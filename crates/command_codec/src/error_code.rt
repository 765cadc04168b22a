ghost use Rattle.std.specs.Prelude.{◌≡◌};
ghost use Rattle.std.specs.Option.{option_copied};
ghost use Rattle.command_codec.specs.ErrorCode.{code_number, code_of, code_text};

/// What an error reply says of the command that was refused.
#[derive(Clone, Copy, Debug, PartialEq, Eq)]
pub enum ErrorCode {
    InvalidChannel,
    UnknownSubscription,
    UnknownPublication,
    UnknownCounter,
    UnknownCommandType,
    MalformedCommand,
    /// The policy denies the request.
    Denied,
    NoMemory,
    /// A limit of the driver is reached.
    Full,
    /// The command's client id is not the one of the handle that it came by, or that client is gone.
    WrongClient,
    Conflict,
    /// The log arena has no free pages.
    NoRoom,
}

impl ErrorCode {
    /// The number that stands for the code in an error reply.
    #[tactic(auto, unfolding(crate::specs::ErrorCode::code_number))]
    pub fn number(self) -> i32
        ensures { result ≡ code_number self }
    {
        match self {
            ErrorCode::InvalidChannel => 1,
            ErrorCode::UnknownSubscription => 2,
            ErrorCode::UnknownPublication => 3,
            ErrorCode::UnknownCounter => 5,
            ErrorCode::UnknownCommandType => 6,
            ErrorCode::MalformedCommand => 7,
            ErrorCode::Denied => 1001,
            ErrorCode::NoMemory => 1002,
            ErrorCode::Full => 1003,
            ErrorCode::WrongClient => 1004,
            ErrorCode::Conflict => 1005,
            ErrorCode::NoRoom => 1006,
        }
    }

    /// The code that has this number, if one has.
    #[tactic(auto, unfolding(crate::specs::ErrorCode::code_of, crate::specs::ErrorCode::code_number))]
    pub fn from_number(number: i32) -> Option<ErrorCode>
        ensures { result ≡ code_of number }
    {
        match number {
            1 => Some(ErrorCode::InvalidChannel),
            2 => Some(ErrorCode::UnknownSubscription),
            3 => Some(ErrorCode::UnknownPublication),
            5 => Some(ErrorCode::UnknownCounter),
            6 => Some(ErrorCode::UnknownCommandType),
            7 => Some(ErrorCode::MalformedCommand),
            1001 => Some(ErrorCode::Denied),
            1002 => Some(ErrorCode::NoMemory),
            1003 => Some(ErrorCode::Full),
            1004 => Some(ErrorCode::WrongClient),
            1005 => Some(ErrorCode::Conflict),
            1006 => Some(ErrorCode::NoRoom),
            _ => None,
        }
    }

    /// The text of an error reply with this code. A denial has none of its own: its text is the verdict's.
    #[tactic(auto, unfolding(crate::specs::ErrorCode::code_text))]
    pub fn text(self) -> Option<&'static str>
        ensures { option_copied result ≡ code_text self }
    {
        match self {
            ErrorCode::InvalidChannel => Some("invalid channel"),
            ErrorCode::UnknownSubscription => Some("unknown subscription"),
            ErrorCode::UnknownPublication => Some("unknown publication"),
            ErrorCode::UnknownCounter => Some("unknown counter"),
            ErrorCode::UnknownCommandType => Some("unknown command type"),
            ErrorCode::MalformedCommand => Some("malformed command"),
            ErrorCode::Denied => None,
            ErrorCode::NoMemory => Some("no memory"),
            ErrorCode::Full => Some("full"),
            ErrorCode::WrongClient => Some("wrong client"),
            ErrorCode::Conflict => Some("conflict"),
            ErrorCode::NoRoom => Some("no room"),
        }
    }
}
