ghost use Rattle.std.specs.Prelude.{◌≡◌};
ghost use Rattle.command_codec.specs.declared.fault.CommandFault.TheVariants.{NoMemory};

use std::alloc::AllocError;

/// Why bytes were not read as a command or a reply.
#[derive(Clone, Copy, Debug, PartialEq, Eq)]
pub enum CommandFault {
    /// The type number is of no command (or of no reply).
    Unknown,
    /// There are fewer than four bytes; or the type is known, and a field does not fit the layout: it passes the end,
    /// the length of a text or a byte string is negative or past its bound, a text is not ASCII, a code is of no error,
    /// or bytes stand after the last field.
    Malformed,
    /// The bytes are sound, and there is no memory for a text or a byte string in them.
    NoMemory,
}

impl From<AllocError> for CommandFault {
    ghost from_gives = { λ _ fault. fault ≡ NoMemory };

    fn from(_error: AllocError) -> CommandFault {
        CommandFault::NoMemory
    }
}
