ghost use Rattle.driver_core.specs.ImageRequests.{image_for, image_named};
ghost use Rattle.std.specs.Prelude.{◌≡◌};

use crate::state::registry::Registry;
use channel_uri::Address;

/// Why a datagram of a remote publisher's stream is for no image.
#[derive(Clone, Copy, Debug, PartialEq, Eq)]
pub enum Astray {
    /// There is no image of that address, session and stream.
    NoStream,
    /// It is from another address than the SETUP that made the image.
    Stranger,
}

impl Registry {
    /// The source number of the image of that address, session and stream, whoever its publisher is. It takes no memory.
    #[tactic(auto, unfolding(crate::specs::ImageRequests::image_named))]
    pub fn image_named(&self, local: &Address, session: i32, stream: i32) -> Option<u64>
        ensures { result ≡ image_named self.now local.now session stream }
    {
        match self.streams.image_to(local, session, stream) {
            Some(image) => Some(image.number),
            None => None,
        }
    }

    /// The source number of the image that a datagram is for which came to `local` from `from`, of that session and stream.
    /// It takes no memory.
    ///
    /// # Errors
    /// [`Astray::NoStream`] where there is no such image, then [`Astray::Stranger`] where its publisher is not at `from`.
    #[tactic(auto, unfolding(crate::specs::ImageRequests::image_for))]
    pub fn image_for(
        &self,
        local: &Address,
        from: &Address,
        session: i32,
        stream: i32,
    ) -> Result<u64, Astray>
        ensures { result ≡ image_for self.now local.now from.now session stream }
    {
        let Some(image) = self.streams.image_to(local, session, stream) else {
            return Err(Astray::NoStream);
        };
        let Some(publisher) = image.address() else {
            return Err(Astray::Stranger);
        };
        if !publisher.is(from) {
            return Err(Astray::Stranger);
        }
        Ok(image.number)
    }
}
