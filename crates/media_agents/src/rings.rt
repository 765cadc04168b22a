//! The rings by which clients get their replies.

ghost use Rattle.media_agents.specs.Mails.{AcknowledgesOne, IsReplyOf, Posts, PostsTo, RingGoes, RingState, assigned};
ghost use Rattle.rtrb.specs.Ring.{known_free, sent};
ghost use Rattle.std.specs.Prelude.{◌≡◌, ◌≢◌, ◌<◌, All, IfNone, IfSome, Some, length, slice_get};

use crate::mail::{ClientReply, Mail};
use crate::naming::DriverNaming;
use crate::sharing::Acknowledgements;
use published_registry::Receipt;
use rtrb::Producer;
use std::alloc::Global;
use std::marker::Model;

/// The conductor's end of a ring: it puts replies in, and the client takes them out.
#[derive(Drop)]
pub struct Ring<N: DriverNaming> {
    /// Whose ring it is: that client's id, or 0.
    client: u64,
    /// How many of its replies were dropped, since the ring was full.
    lost: u64,
    mails: Producer<Mail<N>, Global>,
    /// By what its commands are acknowledged. Those of the client before it were taken before it had the ring.
    share: Acknowledgements,
}

impl<N: DriverNaming> Model for Ring<N> {
    ghost use Rattle.media_agents.specs.Mails.{RingState};
    ghost use Rattle.rtrb.specs.Ring.{known_free, sent};

    ghost Value = { RingState };

    ghost view = { λ ring. record { client = ring.client; lost = ring.lost; sent = sent ring.mails; free = known_free ring.mails; share = ring.share } };
}

impl<N: DriverNaming> Ring<N> {
    /// A ring that is no client's yet.
    pub fn new(mails: Producer<Mail<N>, Global>, share: Acknowledgements) -> Ring<N>
        ensures { result ≡ record { client = 0; lost = 0; sent = sent mails; free = known_free mails; share = share } }
    {
        Ring {
            client: 0,
            lost: 0,
            mails,
            share,
        }
    }

    /// Whose ring it is.
    fn client(&self) -> u64
        ensures { result ≡ self.now.client }
    {
        self.client
    }

    /// From now on it is that client's, of whose replies none was dropped.
    fn assign(&mut self, client: u64)
        ensures { self.new ≡ record self.old { client = client; lost = 0 } }
    {
        self.client = client;
        self.lost = 0;
    }

    /// Puts a reply into the ring. One that finds it full is dropped and counted; no place was known to be free then. It takes no
    /// memory.
    fn post(&mut self, receipt: &Receipt, reply: ClientReply)
        requires ours { receipt.now.book ≡ N.book }
        requires held { IsReplyOf receipt.now self.old.client reply }
        ensures { Posts receipt.now reply self.old self.new }
    {
        let mail = Mail::new(self.client, self.lost, receipt.again(), reply);
        if self.mails.push(mail).is_err() {
            self.lost = self.lost.saturating_add(1);
        }
    }

    /// A command of its client was taken out of the queue.
    fn acknowledge(&mut self)
        ensures { AcknowledgesOne self.old self.new }
    {
        self.share.add();
    }
}

/// The number of a client's ring, if it has one.
fn ring_of<N: DriverNaming>(rings: &[Ring<N>], client: u64) -> Option<usize>
    ensures found { IfSome result (λ place. (ring : RingState) × (slice_get rings.now place ≡ Some ring) × (ring.client ≡ client)) }
    ensures within { IfSome result (λ place. place < length rings.now) }
    ensures none { IfNone result (All (λ (ring : RingState). ring.client ≢ client) rings.now) }
{
    for place in 0..rings.len() {
        if rings[place].client() == client {
            return Some(place);
        }
    }
    None
}

/// The rings of a driver's clients.
#[derive(Drop)]
pub struct Rings<N: DriverNaming> {
    rings: Vec<Ring<N>>,
}

impl<N: DriverNaming> Model for Rings<N> {
    ghost use Rattle.media_agents.specs.Mails.{RingState};
    ghost use Rattle.std.specs.Prelude.{List};

    ghost Value = { List RingState };

    ghost view = { λ rings. rings.rings.items };
}

impl<N: DriverNaming> Rings<N> {
    /// These rings, numbered from 0.
    pub fn new(rings: Vec<Ring<N>>) -> Rings<N>
        ensures { result ≡ rings.items }
    {
        Rings { rings }
    }

    /// The ring of that number is that client's from now on.
    pub(crate) fn assign(&mut self, ring: u16, client: u64)
        ensures { self.new ≡ assigned ring client self.old }
    {
        if let Some(ring) = self.rings.get_mut(ring as usize) {
            ring.assign(client);
        }
    }

    /// A reply goes into the ring of its client. Where the client has none, nobody is there to take it. It takes no memory.
    pub(crate) fn post(&mut self, receipt: &Receipt, client: u64, reply: ClientReply)
        requires ours { receipt.now.book ≡ N.book }
        requires held { IsReplyOf receipt.now client reply }
        ensures { PostsTo receipt.now client reply self.old self.new }
    {
        if let Some(place) = ring_of(self.rings.as_slice(), client) {
            self.rings[place].post(receipt, reply);
        }
    }

    /// A command of this client was taken out of the queue. It takes no memory.
    pub(crate) fn acknowledge(&mut self, client: u64)
        ensures { RingGoes client AcknowledgesOne self.old self.new }
    {
        if let Some(place) = ring_of(self.rings.as_slice(), client) {
            self.rings[place].acknowledge();
        }
    }
}
