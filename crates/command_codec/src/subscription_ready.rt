ghost use Rattle.std.specs.Prelude.{◌≡◌, ◌++◌, OnOk};

use crate::fault::CommandFault;
use crate::fields;
use std::alloc::AllocError;

/// A subscription was added (ON_SUBSCRIPTION_READY).
#[derive(Clone, Copy, Debug, PartialEq, Eq)]
pub struct SubscriptionReady {
    /// The correlation id of the command that asked for it.
    pub correlation: u64,
    /// The number by which later commands name the subscription.
    pub registration: u64,
}

impl SubscriptionReady {
    ghost use Rattle.command_codec.specs.SubscriptionReady.{subscription_ready_bytes, subscription_ready_of};

    /// The fields after a reply's type.
    #[tactic(auto, unfolding(crate::specs::SubscriptionReady::subscription_ready_of))]
    pub(crate) fn read(bytes: &[u8]) -> Result<SubscriptionReady, CommandFault>
        ensures { result ≡ subscription_ready_of bytes.now }
    {
        let (correlation, registration) = fields::two_u64(bytes)?;
        Ok(SubscriptionReady {
            correlation,
            registration,
        })
    }

    /// Writes the fields at the end.
    #[tactic(auto, unfolding(crate::specs::SubscriptionReady::subscription_ready_bytes))]
    pub(crate) fn put(&self, out: &mut Vec<u8>) -> Result<(), AllocError>
        ensures { OnOk result (out.new.items ≡ out.old.items ++ subscription_ready_bytes self.now) }
    {
        fields::put_u64(out, self.correlation)?;
        fields::put_u64(out, self.registration)
    }
}
