//! Lists and their readers that tests play with, all on stream 10.

use byte_strings::ShortText;
use channel_uri::{Channel, Pattern, UriError};
use client_registry::Clients;
use log_readers::Readers;
use policy_core::{Act, Acts, Policy, Principals, Rule};
use std::alloc::{AllocError, Global};
use std::marker::Model;
use stream_registry::{ImageWanted, LogPlace, Measures, Pair, Streams, Wanted, Wish};

/// How long a log lingers.
pub(crate) const LINGER: u64 = 5_000;

/// The lists, and their readers under a policy of number 1, at the moment 0.
#[derive(Drop)]
pub(crate) struct Play {
    pub(crate) streams: Streams,
    pub(crate) clients: Clients,
    pub(crate) policy: Policy,
    pub(crate) readers: Readers,
}

impl Model for Play {
    ghost use Rattle.std.specs.Prelude.{◌≡◌};
    ghost use Rattle.log_readers.specs.Readers.{all_readers};
    ghost use Rattle.policy_core.specs.Moments.{at};
    ghost use Rattle.stream_registry.specs.Streams.{Streams as StreamLists};

    ghost Value = { StreamLists };

    ghost view = { λ play. play.streams };

    ghost invariant = { λ play. play.readers ≡ all_readers play.streams play.clients.rows (at play.policy 0) 1 };
}

pub(crate) fn pair(source: u64, subscription: u64) -> Pair {
    Pair {
        source,
        subscription,
    }
}

/// What a client publishes on.
pub(crate) fn wanted() -> Wanted {
    Wanted {
        channel: Channel::ipc(),
        stream: 10,
        exclusive: true,
    }
}

/// Allows everything.
fn all_allowed(alloc: Global) -> Result<Policy, AllocError> {
    Policy::new(Vec::new(alloc), true)
}

/// Denies `image` to principal 2.
fn image_rule() -> Result<Rule, UriError> {
    Ok(Rule {
        name: ShortText::new("images"),
        principals: Principals::One(2),
        acts: Acts::none().with(Act::Image),
        channel: Pattern::parse("*")?,
        low: i32::MIN,
        high: i32::MAX,
        from: None,
        until: None,
        allow: false,
    })
}

/// Allows everything but `image` to principal 2.
fn image_denied(alloc: Global) -> Result<Policy, AllocError> {
    match image_rule() {
        Ok(rule) => Policy::new(vec![in alloc; rule]?, true),
        Err(_) => all_allowed(alloc),
    }
}

/// The one, or the other.
pub(crate) fn policy(alloc: Global, is_denied: bool) -> Result<Policy, AllocError> {
    if is_denied {
        image_denied(alloc)
    } else {
        all_allowed(alloc)
    }
}

/// Of principals 1 and 2.
fn two_clients(alloc: Global) -> Result<Clients, AllocError> {
    let mut clients = Clients::new(alloc, 10)?;
    let _first = clients.admit(1, 0);
    let _second = clients.admit(2, 0);
    Ok(clients)
}

impl Play {
    /// Two clients, of principals 1 and 2, and nothing else.
    pub(crate) fn new(alloc: Global, policy: Policy) -> Result<Play, AllocError> {
        let defaults = Measures {
            mtu: 1408,
            term_length: 65_536,
            linger: LINGER,
        };
        match Streams::new(alloc, defaults, 1) {
            Ok(streams) => Play::with(alloc, policy, streams),
            Err(refused) => {
                drop(policy);
                Err(refused)
            }
        }
    }

    fn with(alloc: Global, policy: Policy, streams: Streams) -> Result<Play, AllocError> {
        match two_clients(alloc) {
            Ok(clients) => Play::with_clients(alloc, policy, streams, clients),
            Err(refused) => {
                drop(policy);
                drop(streams);
                Err(refused)
            }
        }
    }

    fn with_clients(
        alloc: Global,
        policy: Policy,
        streams: Streams,
        clients: Clients,
    ) -> Result<Play, AllocError> {
        match Readers::new(alloc) {
            Ok(readers) => Ok(Play::of(streams, clients, policy, readers)),
            Err(refused) => {
                drop(policy);
                drop(streams);
                drop(clients);
                Err(refused)
            }
        }
    }

    /// The readers are asked from the beginning.
    fn of(streams: Streams, clients: Clients, policy: Policy, mut readers: Readers) -> Play {
        readers.ask_again(&streams, &clients, &policy.at(0), 1);
        Play {
            streams,
            clients,
            policy,
            readers,
        }
    }

    /// Whether there is room for the subscription. It is there then.
    pub(crate) fn subscribes_to(&mut self, number: u64, client: u64, channel: &Channel) -> bool {
        if !self.streams.has_room_for_subscription() {
            return false;
        }
        let wish = Wish {
            number,
            client,
            channel,
            stream: 10,
        };
        self.readers
            .add_subscription(&self.streams, &self.clients, &self.policy.at(0), 1, &wish);
        self.streams.add_subscription(number, client, channel, 10);
        true
    }

    /// Whether there is room for the subscription, by shared memory. It is there then.
    pub(crate) fn subscribes(&mut self, number: u64, client: u64) -> bool {
        let channel = Channel::ipc();
        self.subscribes_to(number, client, &channel)
    }

    /// Whether there is room for the image. It is there then, and there are as many pairs as were counted before.
    pub(crate) fn images(&mut self, number: u64, wanted: &ImageWanted) -> bool {
        if !self.streams.has_room_for_image() {
            return false;
        }
        let counted = self.readers.pair_count_with_image(
            &self.streams,
            &self.clients,
            &self.policy.at(0),
            1,
            number,
            wanted,
            0,
        );
        self.readers.add_image(
            &self.streams,
            &self.clients,
            &self.policy.at(0),
            1,
            number,
            wanted,
            0,
        );
        self.streams.add_image(number, wanted, 0);
        self.reads(counted)
    }

    /// Whether a log may be made. It is there then.
    pub(crate) fn publishes(&mut self, number: u64, client: u64) -> bool {
        let wanted = wanted();
        let Ok(adding) = self.streams.adding(&wanted) else {
            return false;
        };
        self.readers.add_publication(
            &self.streams,
            &self.clients,
            &self.policy.at(0),
            1,
            number,
            client,
            &wanted,
            0,
            adding,
        );
        self.streams
            .add_publication(number, client, &wanted, 0, adding);
        true
    }

    /// Whether there are so many readers, and as many pairs.
    pub(crate) fn reads(&self, total: usize) -> bool {
        let pairs = log_readers::pair_count(&self.streams, &self.clients, &self.policy.at(0), 1);
        (self.readers.total() == total) & (pairs == total)
    }

    /// A client leaves at 0, and all are asked again.
    pub(crate) fn leaves(&mut self, client: u64) {
        self.streams.client_left(client, 0);
        self.readers
            .ask_again(&self.streams, &self.clients, &self.policy.at(0), 1);
    }

    /// The logs close that linger for too long.
    #[tactic(auto, using(log_readers::proofs::ReaderLemmas::as_many_as_logs))]
    pub(crate) fn closes(&mut self, now: u64) {
        self.readers.close(&self.streams, now, &[]);
        self.streams.close(now, &[]);
    }

    /// Whether these images are the ones that no subscription reads.
    #[tactic(auto, using(log_readers::proofs::ReaderLemmas::as_many_as_logs))]
    pub(crate) fn has_unread(&self, numbers: &[u64]) -> bool {
        self.readers.unread(&self.streams).as_slice() == numbers
    }

    /// These images go.
    #[tactic(auto, using(log_readers::proofs::ReaderLemmas::as_many_as_logs))]
    pub(crate) fn removes_images(&mut self, numbers: &[u64]) {
        self.readers.remove_images(&self.streams, numbers);
        self.streams.remove_images(numbers);
    }

    /// Whether these are the pairs of the subscription of this number.
    #[tactic(auto, using(log_readers::proofs::ReaderLemmas::as_many_as_logs))]
    pub(crate) fn has_number(&self, alloc: Global, number: u64, pairs: &[Pair]) -> bool {
        let rows = self.streams.subscriptions();
        let Some(row) = rows.iter().find(|row| row.number == number) else {
            return pairs.is_empty();
        };
        match self.readers.pairs_of_row(alloc, &self.streams, &row.wish()) {
            Ok(found) => found.as_slice() == pairs,
            Err(_) => false,
        }
    }

    /// Whether these are the pairs of the client's subscriptions.
    #[tactic(auto, using(log_readers::proofs::ReaderLemmas::as_many_as_logs))]
    pub(crate) fn has_client(&self, alloc: Global, client: u64, pairs: &[Pair]) -> bool {
        match self.readers.pairs_of_client(alloc, &self.streams, client) {
            Ok(found) => found.as_slice() == pairs,
            Err(_) => false,
        }
    }

    /// Whether these are the pairs of this log.
    #[tactic(auto, using(log_readers::proofs::ReaderLemmas::as_many_as_logs))]
    pub(crate) fn has_log(&self, alloc: Global, source: u64, pairs: &[Pair]) -> bool {
        let closes = [LogPlace { source, place: 0 }];
        match self
            .readers
            .pairs_of_going(alloc, &self.streams, &[], &closes)
        {
            Ok(found) => found.as_slice() == pairs,
            Err(_) => false,
        }
    }

    /// Whether these are all pairs.
    #[tactic(auto, using(log_readers::proofs::ReaderLemmas::as_many_as_logs))]
    pub(crate) fn has_pairs(&self, alloc: Global, pairs: &[Pair]) -> bool {
        match self.readers.pairs(alloc, &self.streams) {
            Ok(found) => found.as_slice() == pairs,
            Err(_) => false,
        }
    }

    /// Whether the subscription of this number reads this log.
    #[tactic(auto, using(log_readers::proofs::ReaderLemmas::as_many_as_logs))]
    pub(crate) fn has(&self, source: u64, number: u64) -> bool {
        self.readers.has(&self.streams, source, number)
    }

    /// Whether these subscriptions read this log.
    #[tactic(auto, using(log_readers::proofs::ReaderLemmas::as_many_as_logs))]
    pub(crate) fn is_read_by(&self, source: u64, numbers: &[u64]) -> bool {
        self.readers.of_source(&self.streams, source) == numbers
    }

    /// Whether these pairs go and those come under this policy, of number 2.
    #[tactic(auto, using(log_readers::proofs::ReaderLemmas::as_many_as_logs))]
    pub(crate) fn turns_over(
        &self,
        alloc: Global,
        policy: &Policy,
        gone: &[Pair],
        come: &[Pair],
    ) -> bool {
        match self
            .readers
            .turnover_under(alloc, &self.streams, &self.clients, &policy.at(0), 2)
        {
            Ok(turnover) => {
                let same = (turnover.gone.as_slice() == gone) & (turnover.come.as_slice() == come);
                drop(turnover);
                same
            }
            Err(_) => false,
        }
    }
}
