ghost use Rattle.std.specs.Prelude.{◌≡◌, ◌++◌, OnOk};

use crate::fault::CommandFault;
use crate::fields;
use std::alloc::AllocError;

/// A client asks that what stands under a registration be removed (REMOVE_PUBLICATION, REMOVE_SUBSCRIPTION,
/// REMOVE_COUNTER).
#[derive(Clone, Copy, Debug, PartialEq, Eq)]
pub struct Removal {
    /// The number under which it was registered.
    pub registration: u64,
}

impl Removal {
    ghost use Rattle.command_codec.specs.Removal.{removal_bytes, removal_of};

    /// The fields after a command's head.
    #[tactic(auto, unfolding(crate::specs::Removal::removal_of))]
    pub(crate) fn read(bytes: &[u8]) -> Result<Removal, CommandFault>
        ensures { result ≡ removal_of bytes.now }
    {
        let registration = fields::one_u64(bytes)?;
        Ok(Removal { registration })
    }

    /// Writes the fields at the end.
    #[tactic(auto, unfolding(crate::specs::Removal::removal_bytes))]
    pub(crate) fn put(&self, out: &mut Vec<u8>) -> Result<(), AllocError>
        ensures { OnOk result (out.new.items ≡ out.old.items ++ removal_bytes self.now) }
    {
        fields::put_u64(out, self.registration)
    }
}
