ghost use Rattle.std.specs.Prelude.{◌≡◌, ◌++◌, false, true, IfOk, OnOk};
ghost use Rattle.command_codec.specs.Gives.{Equals, Gives, takes_memory};

use crate::fault::CommandFault;
use crate::fields;
use byte_strings::Text;
use std::alloc::{AllocError, Global};

/// A client asks to subscribe to a stream of a channel (ADD_SUBSCRIPTION).
#[derive(Debug, PartialEq, Eq, Drop)]
pub struct AddSubscription {
    /// Read and written, and without effect.
    pub registration_correlation: u64,
    pub stream: i32,
    /// The channel as the client wrote it: ASCII of any length, which need not be a channel.
    pub channel: Text,
}

impl AddSubscription {
    ghost use Rattle.command_codec.specs.AddSubscription.{add_subscription_bytes, add_subscription_of};

    /// The fields after a command's head, the channel where it lies.
    #[tactic(auto, unfolding(crate::specs::AddSubscription::add_subscription_of))]
    pub(crate) fn seen(bytes: &[u8]) -> Result<(u64, i32, &str), CommandFault>
        ensures { Equals (λ fields. record { registration_correlation = fields.0; stream = fields.1; channel = fields.2.now }) result (add_subscription_of bytes.now) }
    {
        let (registration_correlation, rest) = fields::u64_at(bytes)?;
        let (stream, rest) = fields::i32_at(rest)?;
        let (channel, rest) = fields::text_at(rest, fields::LONGEST)?;
        fields::end(rest)?;
        Ok((registration_correlation, stream, channel))
    }

    /// The fields after a command's head.
    pub(crate) fn read(alloc: Global, bytes: &[u8]) -> Result<AddSubscription, CommandFault>
        ensures exact { Gives result (add_subscription_of bytes.now) }
        ensures without_memory { takes_memory (λ _. true) (add_subscription_of bytes.now) ≡ false
            → result ≡ add_subscription_of bytes.now }
    {
        let (registration_correlation, stream, channel) = AddSubscription::seen(bytes)?;
        Ok(AddSubscription {
            registration_correlation,
            stream,
            channel: Text::new(alloc, channel)?,
        })
    }

    /// Writes the fields at the end.
    #[tactic(auto, unfolding(crate::specs::AddSubscription::add_subscription_bytes))]
    pub(crate) fn put(&self, out: &mut Vec<u8>) -> Result<(), AllocError>
        ensures { OnOk result (out.new.items ≡ out.old.items ++ add_subscription_bytes self.now) }
    {
        fields::put_u64(out, self.registration_correlation)?;
        fields::put_i32(out, self.stream)?;
        fields::put_text(out, &self.channel)
    }

    /// Another command with the same fields.
    pub(crate) fn copy(&self, alloc: Global) -> Result<AddSubscription, AllocError>
        ensures { IfOk result (λ copy. copy ≡ self.now) }
    {
        Ok(AddSubscription {
            registration_correlation: self.registration_correlation,
            stream: self.stream,
            channel: self.channel.copy(alloc)?,
        })
    }
}
