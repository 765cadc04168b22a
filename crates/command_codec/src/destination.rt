ghost use Rattle.std.specs.Prelude.{◌≡◌, ◌++◌, false, true, IfOk, OnOk};
ghost use Rattle.command_codec.specs.Gives.{Gives, takes_memory};

use crate::fault::CommandFault;
use crate::fields;
use byte_strings::Text;
use std::alloc::{AllocError, Global};

/// A client names a destination of one of its publications, or takes one back (ADD_DESTINATION, REMOVE_DESTINATION).
#[derive(Debug, PartialEq, Eq, Drop)]
pub struct Destination {
    /// The number under which the publication was registered.
    pub registration: u64,
    /// The channel as the client wrote it: ASCII of any length, which need not be a channel.
    pub channel: Text,
}

impl Destination {
    ghost use Rattle.command_codec.specs.Destination.{destination_bytes, destination_of};

    /// The fields after a command's head.
    #[tactic(auto, unfolding(crate::specs::Destination::destination_of))]
    pub fn read(alloc: Global, bytes: &[u8]) -> Result<Destination, CommandFault>
        ensures exact { Gives result (destination_of bytes.now) }
        ensures without_memory { takes_memory (λ _. true) (destination_of bytes.now) ≡ false
            → result ≡ destination_of bytes.now }
    {
        let (registration, rest) = fields::u64_at(bytes)?;
        let (channel, rest) = fields::text_at(rest, fields::LONGEST)?;
        fields::end(rest)?;
        Ok(Destination {
            registration,
            channel: Text::new(alloc, channel)?,
        })
    }

    /// Writes the fields at the end.
    #[tactic(auto, unfolding(crate::specs::Destination::destination_bytes))]
    pub fn put(&self, out: &mut Vec<u8>) -> Result<(), AllocError>
        ensures { OnOk result (out.new.items ≡ out.old.items ++ destination_bytes self.now) }
    {
        fields::put_u64(out, self.registration)?;
        fields::put_text(out, &self.channel)
    }

    /// Another command with the same fields.
    pub fn copy(&self, alloc: Global) -> Result<Destination, AllocError>
        ensures { IfOk result (λ copy. copy ≡ self.now) }
    {
        Ok(Destination {
            registration: self.registration,
            channel: self.channel.copy(alloc)?,
        })
    }
}
