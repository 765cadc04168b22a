ghost use Rattle.std.specs.Prelude.{◌≡◌, ◌++◌, OnOk};

use crate::fault::CommandFault;
use crate::fields;
use std::alloc::AllocError;

/// A client was not heard of for too long, and is gone (ON_CLIENT_TIMEOUT).
#[derive(Clone, Copy, Debug, PartialEq, Eq)]
pub struct ClientTimeout {
    /// The client's id.
    pub client: u64,
}

impl ClientTimeout {
    ghost use Rattle.command_codec.specs.ClientTimeout.{client_timeout_bytes, client_timeout_of};

    /// The fields after a reply's type.
    #[tactic(auto, unfolding(crate::specs::ClientTimeout::client_timeout_of))]
    pub(crate) fn read(bytes: &[u8]) -> Result<ClientTimeout, CommandFault>
        ensures { result ≡ client_timeout_of bytes.now }
    {
        let client = fields::one_u64(bytes)?;
        Ok(ClientTimeout { client })
    }

    /// Writes the fields at the end.
    #[tactic(auto, unfolding(crate::specs::ClientTimeout::client_timeout_bytes))]
    pub(crate) fn put(&self, out: &mut Vec<u8>) -> Result<(), AllocError>
        ensures { OnOk result (out.new.items ≡ out.old.items ++ client_timeout_bytes self.now) }
    {
        fields::put_u64(out, self.client)
    }
}
