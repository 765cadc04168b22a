//! How many pairs there are under a policy, and would be: from what is kept and the rows that come.

ghost use Rattle.log_readers.specs.Readers.{all_readers};
ghost use Rattle.std.specs.List.{flat_map};
ghost use Rattle.std.specs.Prelude.{◌≡◌, ◌≤◌, length};
ghost use Rattle.stream_registry.specs.Adding.{added, subscribed};
ghost use Rattle.stream_registry.specs.Pairs.{pairs_at, pairs_of};

use crate::coming::{logs_read, readers_of};
use crate::readers::Readers;
use client_registry::Clients;
use policy_core::Standing;
use stream_registry::{Adding, Streams, Subscription, Wanted, Wish};

/// How many pairs there are of these subscriptions: each is asked about once.
fn pairs_among(
    streams: &Streams,
    clients: &Clients,
    policy: &Standing<'_>,
    epoch: u64,
    subscriptions: &[Subscription],
) -> usize
    requires { length subscriptions.now ≤ 512 }
    ensures { result ≡ length (flat_map (pairs_at clients.now.rows policy.now epoch subscriptions.now) streams.now.sources) }
{
    let mut pairs = 0;
    for subscription in subscriptions {
        pairs += logs_read(streams, clients, policy, epoch, &subscription.wish());
    }
    pairs
}

/// How many pairs there are under a policy, which goes by the number `epoch` and is asked once for each subscription. It
/// takes no memory.
#[tactic(auto, unfolding(stream_registry::specs::Pairs::pairs_of))]
pub fn pair_count(streams: &Streams, clients: &Clients, policy: &Standing<'_>, epoch: u64) -> usize
    ensures { result ≡ length (pairs_of streams.now clients.now.rows policy.now epoch) }
{
    pairs_among(streams, clients, policy, epoch, streams.subscriptions())
}

impl Readers {
    /// How many pairs there would be with the subscription. The policy, which goes by the number `epoch`, is asked once. It
    /// takes no memory.
    pub fn pair_count_with_subscription(
        &self,
        streams: &Streams,
        clients: &Clients,
        policy: &Standing<'_>,
        epoch: u64,
        wish: &Wish<'_>,
    ) -> usize
        requires { self.now ≡ all_readers streams.now clients.now.rows policy.now epoch }
        ensures { result ≡ length (pairs_of (subscribed streams.now wish.now.number wish.now.client wish.now.channel.now wish.now.stream) clients.now.rows policy.now epoch) }
    {
        self.total() + logs_read(streams, clients, policy, epoch, wish)
    }

    /// How many pairs there would be with the publication. The policy, which goes by the number `epoch`, is asked for a new
    /// log alone, once for each subscription that fits. It takes no memory.
    pub fn pair_count_with_publication(
        &self,
        streams: &Streams,
        clients: &Clients,
        policy: &Standing<'_>,
        epoch: u64,
        number: u64,
        client: u64,
        wanted: &Wanted,
        place: u64,
        adding: Adding,
    ) -> usize
        requires { self.now ≡ all_readers streams.now clients.now.rows policy.now epoch }
        ensures { result ≡ length (pairs_of (added streams.now number client wanted.now place adding) clients.now.rows policy.now epoch) }
    {
        let total = self.total();
        match adding {
            Adding::Join { .. } => total,
            Adding::Make { session } => {
                let log = streams.log(number, wanted, place, session);
                total + readers_of(streams, clients, policy, epoch, &log)
            }
        }
    }
}
