ghost use Rattle.stream_registry.specs.Wish.{row_of};
ghost use Rattle.std.specs.Prelude.{◌≡◌};

use crate::row::Subscription;
use channel_uri::Channel;
use rows::Form;

/// A subscription that is asked about, whether it is there or not.
#[derive(Clone, Copy)]
pub struct Wish<'a> {
    /// The registration number.
    pub number: u64,
    /// The id of the client that it belongs to.
    pub client: u64,
    pub channel: &'a Channel,
    /// The stream id.
    pub stream: i32,
}

impl Subscription {
    /// This subscription, to ask about it.
    pub fn wish(&self) -> Wish<'_>
        ensures { row_of result ≡ self.now }
    {
        Wish {
            number: self.number,
            client: self.client,
            channel: &self.channel,
            stream: self.stream,
        }
    }
}

impl Form<Subscription> for Wish<'_> {
    ghost formed = { λ wish. row_of wish };

    fn make(&self) -> Subscription {
        Subscription {
            number: self.number,
            client: self.client,
            channel: self.channel.copy(),
            stream: self.stream,
        }
    }

    fn write(&self, row: &mut Subscription) {
        row.number = self.number;
        row.client = self.client;
        row.channel.set_from(self.channel);
        row.stream = self.stream;
    }
}
