ghost use Rattle.std.specs.Prelude.{◌≡◌, IfOk, length};

use byte_strings::Bytes;
use channel_uri::Address;
use std::alloc::{AllocError, Global};

/// A datagram with the addresses that it goes from and to.
#[derive(Debug, Drop)]
pub struct Letter {
    pub from: Address,
    pub to: Address,
    pub bytes: Bytes,
}

impl Letter {
    ghost use Rattle.media_wire.specs.Letters.{letter};

    /// A letter with a copy of the bytes.
    pub fn new(
        alloc: Global,
        from: &Address,
        to: &Address,
        bytes: &[u8],
    ) -> Result<Letter, AllocError>
        ensures { IfOk result (λ made. made ≡ letter from.now to.now bytes.now) }
    {
        Ok(Letter {
            from: *from,
            to: *to,
            bytes: Bytes::new(alloc, bytes)?,
        })
    }

    /// Another letter, equal to this one.
    pub fn copy(&self, alloc: Global) -> Result<Letter, AllocError>
        ensures { IfOk result (λ copy. copy ≡ self.now) }
    {
        Letter::new(alloc, &self.from, &self.to, self.bytes.as_slice())
    }
}
