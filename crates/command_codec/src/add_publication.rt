ghost use Rattle.std.specs.Prelude.{◌≡◌, ◌++◌, false, true, IfOk, OnOk};
ghost use Rattle.command_codec.specs.Gives.{Equals, Gives, takes_memory};

use crate::fault::CommandFault;
use crate::fields;
use byte_strings::Text;
use std::alloc::{AllocError, Global};

/// A client asks to publish a stream of a channel (ADD_PUBLICATION, ADD_EXCLUSIVE_PUBLICATION).
#[derive(Debug, PartialEq, Eq, Drop)]
pub struct AddPublication {
    pub stream: i32,
    /// The channel as the client wrote it: ASCII of any length, which need not be a channel.
    pub channel: Text,
}

impl AddPublication {
    ghost use Rattle.command_codec.specs.AddPublication.{add_publication_bytes, add_publication_of};

    /// The fields after a command's head, the channel where it lies.
    #[tactic(auto, unfolding(crate::specs::AddPublication::add_publication_of))]
    pub(crate) fn seen(bytes: &[u8]) -> Result<(i32, &str), CommandFault>
        ensures { Equals (λ fields. record { stream = fields.0; channel = fields.1.now }) result (add_publication_of bytes.now) }
    {
        let (stream, rest) = fields::i32_at(bytes)?;
        let (channel, rest) = fields::text_at(rest, fields::LONGEST)?;
        fields::end(rest)?;
        Ok((stream, channel))
    }

    /// The fields after a command's head.
    pub(crate) fn read(alloc: Global, bytes: &[u8]) -> Result<AddPublication, CommandFault>
        ensures exact { Gives result (add_publication_of bytes.now) }
        ensures without_memory { takes_memory (λ _. true) (add_publication_of bytes.now) ≡ false
            → result ≡ add_publication_of bytes.now }
    {
        let (stream, channel) = AddPublication::seen(bytes)?;
        Ok(AddPublication {
            stream,
            channel: Text::new(alloc, channel)?,
        })
    }

    /// Writes the fields at the end.
    #[tactic(auto, unfolding(crate::specs::AddPublication::add_publication_bytes))]
    pub(crate) fn put(&self, out: &mut Vec<u8>) -> Result<(), AllocError>
        ensures { OnOk result (out.new.items ≡ out.old.items ++ add_publication_bytes self.now) }
    {
        fields::put_i32(out, self.stream)?;
        fields::put_text(out, &self.channel)
    }

    /// Another command with the same fields.
    pub(crate) fn copy(&self, alloc: Global) -> Result<AddPublication, AllocError>
        ensures { IfOk result (λ copy. copy ≡ self.now) }
    {
        Ok(AddPublication {
            stream: self.stream,
            channel: self.channel.copy(alloc)?,
        })
    }
}
