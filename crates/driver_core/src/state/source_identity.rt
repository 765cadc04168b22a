//! How a subscription has the log that it reads.

ghost use Rattle.driver_core.specs.Identity.{identity_of, identity_text};
ghost use Rattle.std.specs.Prelude.{◌≡◌, IfOk};

use byte_strings::Text;
use channel_uri::{Address, Media};
use std::alloc::{AllocError, Global};
use stream_registry::LogRow;

/// How a subscription has a log: what Aeron calls the source identity of an image.
#[derive(Clone, Copy, Debug, PartialEq, Eq)]
pub enum SourceIdentity {
    /// It is a publication of this driver, in shared memory.
    Ipc,
    /// It is a publication of this driver over datagrams, which a spy reads here.
    Spy,
    /// It is rebuilt of what a remote publisher sends from this address.
    Publisher(Address),
}

impl SourceIdentity {
    /// That of a log.
    pub(crate) fn of(log: &LogRow) -> SourceIdentity
        ensures { result ≡ identity_of log.now }
    {
        match log.address() {
            Some(address) => SourceIdentity::Publisher(address),
            None => {
                if log.channel.media() == Media::Udp {
                    SourceIdentity::Spy
                } else {
                    SourceIdentity::Ipc
                }
            }
        }
    }

    /// The text that clients are given: `aeron:ipc`, `aeron:spy`, or the publisher's address.
    pub(crate) fn text(&self, alloc: Global) -> Result<Text, AllocError>
        ensures { IfOk result (λ text. text ≡ identity_text self.now) }
    {
        match self {
            SourceIdentity::Ipc => Text::new(alloc, "aeron:ipc"),
            SourceIdentity::Spy => Text::new(alloc, "aeron:spy"),
            SourceIdentity::Publisher(address) => Text::new(alloc, address.text().as_str()),
        }
    }
}
