//! What a client is sent, with the receipt of the entry that it is of.

ghost use Rattle.media_agents.specs.Mails.{IsReplyOf};
ghost use Rattle.published_registry.specs.Histories.{Known};
ghost use Rattle.std.specs.Prelude.{◌≡◌};

use crate::naming::DriverNaming;
use driver_core::Reply;
use published_registry::Receipt;
use std::marker::{Model, PhantomData};

/// What a client is answered or notified of.
#[derive(Clone, Copy, Debug, PartialEq, Eq)]
pub enum ClientReply {
    /// A reply of an entry: to a command of the client's own, or of an image, a counter or the client itself.
    Of(Reply),
    /// There was no memory for the command of this correlation id. It changed nothing, and no entry holds it.
    NoMemory { correlation: u64 },
}

/// A reply to a client, with the receipt of the entry that holds it. That of a command which found no memory is of the newest
/// entry before it.
#[derive(Drop)]
pub struct Mail<N: DriverNaming> {
    client: u64,
    lost: u64,
    receipt: Receipt,
    reply: ClientReply,
    of: PhantomData<N>,
}

impl<N: DriverNaming> Model for Mail<N> {
    ghost use Rattle.media_agents.specs.Mails.{IsReplyOf, Posted};
    ghost use Rattle.std.specs.Prelude.{◌≡◌};

    ghost Value = { Posted };

    ghost view = { λ mail. record { client = mail.client; lost = mail.lost; receipt = mail.receipt; reply = mail.reply } };

    ghost invariant = { λ mail. (mail.receipt.book ≡ N.book) × IsReplyOf mail.receipt mail.client mail.reply };
}

impl<N: DriverNaming> Mail<N> {
    pub(crate) fn new(client: u64, lost: u64, receipt: Receipt, reply: ClientReply) -> Mail<N>
        requires ours { receipt.book ≡ N.book }
        requires told { IsReplyOf receipt client reply }
        ensures { result ≡ record { client = client; lost = lost; receipt = receipt; reply = reply } }
    {
        Mail {
            client,
            lost,
            receipt,
            reply,
            of: PhantomData,
        }
    }

    /// The id of the client to which it goes.
    pub fn client(&self) -> u64
        ensures { result ≡ self.now.client }
    {
        self.client
    }

    /// How many replies to this client were dropped before this one, since its ring was full. It stays at the greatest `u64`.
    pub fn lost(&self) -> u64
        ensures { result ≡ self.now.lost }
    {
        self.lost
    }

    /// What the client is answered. The receipt's entry holds it, unless there was no memory.
    pub fn reply(&self) -> ClientReply
        ensures reply { result ≡ self.now.reply }
        ensures held { IsReplyOf self.now.receipt self.now.client result }
    {
        self.reply
    }

    /// It names the registry after the entry that holds the reply.
    pub fn receipt(&self) -> &Receipt
        ensures receipt { result.now ≡ self.now.receipt }
        ensures ours { result.now.book ≡ N.book }
    {
        &self.receipt
    }
}
