ghost use Rattle.std.specs.Prelude.{◌≡◌, ◌++◌, OnOk};

use crate::fault::CommandFault;
use crate::fields;
use std::alloc::AllocError;

/// A counter went (ON_UNAVAILABLE_COUNTER).
#[derive(Clone, Copy, Debug, PartialEq, Eq)]
pub struct UnavailableCounter {
    /// The number under which it was registered.
    pub registration: u64,
}

impl UnavailableCounter {
    ghost use Rattle.command_codec.specs.UnavailableCounter.{unavailable_counter_bytes, unavailable_counter_of};

    /// The fields after a reply's type.
    #[tactic(auto, unfolding(crate::specs::UnavailableCounter::unavailable_counter_of))]
    pub(crate) fn read(bytes: &[u8]) -> Result<UnavailableCounter, CommandFault>
        ensures { result ≡ unavailable_counter_of bytes.now }
    {
        let registration = fields::one_u64(bytes)?;
        Ok(UnavailableCounter { registration })
    }

    /// Writes the fields at the end.
    #[tactic(auto, unfolding(crate::specs::UnavailableCounter::unavailable_counter_bytes))]
    pub(crate) fn put(&self, out: &mut Vec<u8>) -> Result<(), AllocError>
        ensures { OnOk result (out.new.items ≡ out.old.items ++ unavailable_counter_bytes self.now) }
    {
        fields::put_u64(out, self.registration)
    }
}
