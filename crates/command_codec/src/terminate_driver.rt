ghost use Rattle.std.specs.Prelude.{◌≡◌, ◌++◌, false, true, IfOk, OnOk};
ghost use Rattle.command_codec.specs.Gives.{Gives, takes_memory};

use crate::fault::CommandFault;
use crate::fields;
use byte_strings::Bytes;
use std::alloc::{AllocError, Global};

/// The greatest length of a token, in bytes.
const LONGEST_TOKEN: u32 = 1024;

/// A client asks the driver to end (TERMINATE_DRIVER).
#[derive(Debug, PartialEq, Eq, Drop)]
pub struct TerminateDriver {
    /// Read and written, and without effect. A token that was read has at most 1,024 bytes.
    pub token: Bytes,
}

impl TerminateDriver {
    ghost use Rattle.command_codec.specs.TerminateDriver.{terminate_driver_bytes, terminate_driver_of};

    /// The fields after a command's head.
    #[tactic(auto, unfolding(crate::specs::TerminateDriver::terminate_driver_of))]
    pub(crate) fn read(alloc: Global, bytes: &[u8]) -> Result<TerminateDriver, CommandFault>
        ensures exact { Gives result (terminate_driver_of bytes.now) }
        ensures without_memory { takes_memory (λ _. true) (terminate_driver_of bytes.now) ≡ false
            → result ≡ terminate_driver_of bytes.now }
    {
        let (token, rest) = fields::bytes_at(bytes, LONGEST_TOKEN)?;
        fields::end(rest)?;
        Ok(TerminateDriver {
            token: Bytes::new(alloc, token)?,
        })
    }

    /// Writes the fields at the end.
    #[tactic(auto, unfolding(crate::specs::TerminateDriver::terminate_driver_bytes))]
    pub(crate) fn put(&self, out: &mut Vec<u8>) -> Result<(), AllocError>
        ensures { OnOk result (out.new.items ≡ out.old.items ++ terminate_driver_bytes self.now) }
    {
        fields::put_bytes(out, self.token.as_slice())
    }

    /// Another command with the same fields.
    pub(crate) fn copy(&self, alloc: Global) -> Result<TerminateDriver, AllocError>
        ensures { IfOk result (λ copy. copy ≡ self.now) }
    {
        Ok(TerminateDriver {
            token: self.token.copy(alloc)?,
        })
    }
}
