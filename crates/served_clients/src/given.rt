//! Bytes that came to be handed on as a command, read once.

ghost use Rattle.served_clients.specs.Given.{given_of, is_subscribing};
ghost use Rattle.std.specs.Prelude.{◌≡◌, IfOk};

use command_codec::{Body, Command, CommandFault};
use std::alloc::{AllocError, Global};

/// Bytes that came to be handed on as a command, read once.
#[derive(Drop)]
pub struct Given {
    /// By this a reply names it.
    pub correlation: u64,
    /// What it asks for; nothing where the bytes are no command.
    pub body: Option<Body>,
}

impl Given {
    /// What the bytes are.
    pub(crate) fn read(alloc: Global, bytes: &[u8]) -> Result<Given, AllocError>
        ensures { IfOk result (λ given. given ≡ given_of bytes.now) }
    {
        let correlation = Command::correlation_of(bytes);
        match Command::read(alloc, bytes) {
            Ok(command) => Ok(Given {
                correlation,
                body: Some(command.body),
            }),
            Err(CommandFault::NoMemory) => Err(AllocError),
            Err(_) => Ok(Given {
                correlation,
                body: None,
            }),
        }
    }

    /// Whether it asks to subscribe.
    pub(crate) fn subscribes(&self) -> bool
        ensures { result ≡ is_subscribing self.now }
    {
        matches!(self.body, Some(Body::AddSubscription(_)))
    }

    /// Whether it asks that the driver end.
    pub(crate) fn terminates(&self) -> bool {
        matches!(self.body, Some(Body::TerminateDriver(_)))
    }
}
