ghost use Rattle.std.specs.Prelude.{◌≡◌, ◌++◌, OnOk};

use crate::fault::CommandFault;
use crate::fields;
use std::alloc::AllocError;

/// A command that asks for no number was done (ON_OPERATION_SUCCESS).
#[derive(Clone, Copy, Debug, PartialEq, Eq)]
pub struct OperationSuccess {
    /// The correlation id of the command.
    pub correlation: u64,
}

impl OperationSuccess {
    ghost use Rattle.command_codec.specs.OperationSuccess.{operation_success_bytes, operation_success_of};

    /// The fields after a reply's type.
    #[tactic(auto, unfolding(crate::specs::OperationSuccess::operation_success_of))]
    pub(crate) fn read(bytes: &[u8]) -> Result<OperationSuccess, CommandFault>
        ensures { result ≡ operation_success_of bytes.now }
    {
        let correlation = fields::one_u64(bytes)?;
        Ok(OperationSuccess { correlation })
    }

    /// Writes the fields at the end.
    #[tactic(auto, unfolding(crate::specs::OperationSuccess::operation_success_bytes))]
    pub(crate) fn put(&self, out: &mut Vec<u8>) -> Result<(), AllocError>
        ensures { OnOk result (out.new.items ≡ out.old.items ++ operation_success_bytes self.now) }
    {
        fields::put_u64(out, self.correlation)
    }
}
