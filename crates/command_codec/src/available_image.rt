ghost use Rattle.std.specs.Prelude.{◌≡◌, ◌++◌, false, true, IfOk, OnOk};
ghost use Rattle.command_codec.specs.Gives.{Gives, takes_memory};

use crate::fault::CommandFault;
use crate::fields;
use byte_strings::Text;
use std::alloc::{AllocError, Global};

/// A log came that a subscription hears (ON_AVAILABLE_IMAGE).
#[derive(Debug, PartialEq, Eq, Drop)]
pub struct AvailableImage {
    /// The number of the log that is heard.
    pub source: u64,
    /// The number under which the subscription was registered.
    pub subscription: u64,
    /// The log's session.
    pub session: i32,
    /// The log's stream.
    pub stream: i32,
    /// Where in the log the subscription begins to hear it, in bytes from its first term's start.
    pub position: u64,
    /// Where the log comes from: `aeron:ipc`, `aeron:spy`, or the address of a remote source. ASCII of any length.
    pub origin: Text,
}

impl AvailableImage {
    ghost use Rattle.command_codec.specs.AvailableImage.{available_image_bytes, available_image_of};

    /// The fields after a reply's type.
    #[tactic(auto, unfolding(crate::specs::AvailableImage::available_image_of))]
    pub(crate) fn read(alloc: Global, bytes: &[u8]) -> Result<AvailableImage, CommandFault>
        ensures exact { Gives result (available_image_of bytes.now) }
        ensures without_memory { takes_memory (λ _. true) (available_image_of bytes.now) ≡ false
            → result ≡ available_image_of bytes.now }
    {
        let (source, rest) = fields::u64_at(bytes)?;
        let (subscription, rest) = fields::u64_at(rest)?;
        let (session, rest) = fields::i32_at(rest)?;
        let (stream, rest) = fields::i32_at(rest)?;
        let (position, rest) = fields::u64_at(rest)?;
        let (origin, rest) = fields::text_at(rest, fields::LONGEST)?;
        fields::end(rest)?;
        Ok(AvailableImage {
            source,
            subscription,
            session,
            stream,
            position,
            origin: Text::new(alloc, origin)?,
        })
    }

    /// Writes the fields at the end.
    #[tactic(auto, unfolding(crate::specs::AvailableImage::available_image_bytes))]
    pub(crate) fn put(&self, out: &mut Vec<u8>) -> Result<(), AllocError>
        ensures { OnOk result (out.new.items ≡ out.old.items ++ available_image_bytes self.now) }
    {
        fields::put_u64(out, self.source)?;
        fields::put_u64(out, self.subscription)?;
        fields::put_i32(out, self.session)?;
        fields::put_i32(out, self.stream)?;
        fields::put_u64(out, self.position)?;
        fields::put_text(out, &self.origin)
    }

    /// Another reply with the same fields.
    pub(crate) fn copy(&self, alloc: Global) -> Result<AvailableImage, AllocError>
        ensures { IfOk result (λ copy. copy ≡ self.now) }
    {
        Ok(AvailableImage {
            source: self.source,
            subscription: self.subscription,
            session: self.session,
            stream: self.stream,
            position: self.position,
            origin: self.origin.copy(alloc)?,
        })
    }
}
