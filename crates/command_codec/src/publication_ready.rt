ghost use Rattle.std.specs.Prelude.{◌≡◌, ◌++◌, OnOk};

use crate::fault::CommandFault;
use crate::fields;
use std::alloc::AllocError;

/// A publication was added (ON_PUBLICATION_READY, ON_EXCLUSIVE_PUBLICATION_READY).
#[derive(Clone, Copy, Debug, PartialEq, Eq)]
pub struct PublicationReady {
    /// The correlation id of the command that asked for it.
    pub correlation: u64,
    /// The number by which later commands name the publication.
    pub registration: u64,
    /// The session of its log.
    pub session: i32,
    /// The stream of its log.
    pub stream: i32,
}

impl PublicationReady {
    ghost use Rattle.command_codec.specs.PublicationReady.{publication_ready_bytes, publication_ready_of};

    /// The fields after a reply's type.
    #[tactic(auto, unfolding(crate::specs::PublicationReady::publication_ready_of))]
    pub(crate) fn read(bytes: &[u8]) -> Result<PublicationReady, CommandFault>
        ensures { result ≡ publication_ready_of bytes.now }
    {
        let (correlation, rest) = fields::u64_at(bytes)?;
        let (registration, rest) = fields::u64_at(rest)?;
        let (session, rest) = fields::i32_at(rest)?;
        let (stream, rest) = fields::i32_at(rest)?;
        fields::end(rest)?;
        Ok(PublicationReady {
            correlation,
            registration,
            session,
            stream,
        })
    }

    /// Writes the fields at the end.
    #[tactic(auto, unfolding(crate::specs::PublicationReady::publication_ready_bytes))]
    pub(crate) fn put(&self, out: &mut Vec<u8>) -> Result<(), AllocError>
        ensures { OnOk result (out.new.items ≡ out.old.items ++ publication_ready_bytes self.now) }
    {
        fields::put_u64(out, self.correlation)?;
        fields::put_u64(out, self.registration)?;
        fields::put_i32(out, self.session)?;
        fields::put_i32(out, self.stream)
    }
}
