ghost use Rattle.std.specs.Prelude.{◌≡◌};

use channel_uri::{Address, Channel};
use rows::{Form, Twin};

/// An address to which the datagrams of a log go.
#[derive(Debug, Drop)]
pub struct Destination {
    /// The destination's number, which no other destination ever has.
    pub number: u64,
    /// The source number of the log.
    pub source: u64,
    pub address: Address,
    /// Whom the client acted for that named the destination; it stays when that client goes.
    pub principal: u32,
    /// The channel that named it, with all its keys.
    pub channel: Channel,
}

impl Twin for Destination {
    fn twin(&self) -> Destination {
        Destination {
            number: self.number,
            source: self.source,
            address: self.address,
            principal: self.principal,
            channel: self.channel.copy(),
        }
    }

    fn set_from(&mut self, other: &Destination) {
        self.number = other.number;
        self.source = other.source;
        self.address = other.address;
        self.principal = other.principal;
        self.channel.set_from(&other.channel);
    }
}

/// A destination that comes.
#[derive(Clone, Copy)]
pub(crate) struct NewDestination<'a> {
    pub(crate) number: u64,
    pub(crate) source: u64,
    pub(crate) address: Address,
    pub(crate) principal: u32,
    pub(crate) channel: &'a Channel,
}

impl Form<Destination> for NewDestination<'_> {
    ghost formed = { λ form. record { number = form.number; source = form.source; address = form.address; principal = form.principal; channel = form.channel.now } };

    fn make(&self) -> Destination {
        Destination {
            number: self.number,
            source: self.source,
            address: self.address,
            principal: self.principal,
            channel: self.channel.copy(),
        }
    }

    fn write(&self, row: &mut Destination) {
        row.number = self.number;
        row.source = self.source;
        row.address = self.address;
        row.principal = self.principal;
        row.channel.set_from(self.channel);
    }
}
