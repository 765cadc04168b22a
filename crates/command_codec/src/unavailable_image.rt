ghost use Rattle.std.specs.Prelude.{◌≡◌, ◌++◌, OnOk};

use crate::fault::CommandFault;
use crate::fields;
use std::alloc::AllocError;

/// A log that a subscription heard is heard by it no more (ON_UNAVAILABLE_IMAGE).
#[derive(Clone, Copy, Debug, PartialEq, Eq)]
pub struct UnavailableImage {
    /// The number of the log.
    pub source: u64,
    /// The number under which the subscription was registered.
    pub subscription: u64,
    /// The log's stream.
    pub stream: i32,
}

impl UnavailableImage {
    ghost use Rattle.command_codec.specs.UnavailableImage.{unavailable_image_bytes, unavailable_image_of};

    /// The fields after a reply's type.
    #[tactic(auto, unfolding(crate::specs::UnavailableImage::unavailable_image_of))]
    pub(crate) fn read(bytes: &[u8]) -> Result<UnavailableImage, CommandFault>
        ensures { result ≡ unavailable_image_of bytes.now }
    {
        let (source, rest) = fields::u64_at(bytes)?;
        let (subscription, rest) = fields::u64_at(rest)?;
        let (stream, rest) = fields::i32_at(rest)?;
        fields::end(rest)?;
        Ok(UnavailableImage {
            source,
            subscription,
            stream,
        })
    }

    /// Writes the fields at the end.
    #[tactic(auto, unfolding(crate::specs::UnavailableImage::unavailable_image_bytes))]
    pub(crate) fn put(&self, out: &mut Vec<u8>) -> Result<(), AllocError>
        ensures { OnOk result (out.new.items ≡ out.old.items ++ unavailable_image_bytes self.now) }
    {
        fields::put_u64(out, self.source)?;
        fields::put_u64(out, self.subscription)?;
        fields::put_i32(out, self.stream)
    }
}
