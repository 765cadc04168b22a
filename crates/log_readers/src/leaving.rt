ghost use Rattle.log_readers.specs.Numbering.{Rises, number_of};
ghost use Rattle.log_readers.specs.Readers.{all_readers, is_of_others};
ghost use Rattle.client_registry.specs.Clients.{ClientList, without};
ghost use Rattle.client_registry.specs.declared.client.Client.{Client};
ghost use Rattle.policy_core.specs.RuleList.{Rules};
ghost use Rattle.std.specs.Prelude.{◌≡◌, ℕ, List, filter, map};
ghost use Rattle.stream_registry.specs.Leaving.{left};

use crate::readers::Readers;
use rows::Test;
use stream_registry::Streams;

/// Keeps the numbers of all subscriptions but this client's.
#[derive(Clone, Copy)]
struct OfOthers<'a> {
    streams: &'a Streams,
    client: u64,
}

impl Test<u64> for OfOthers<'_> {
    ghost keeps = { λ test number. is_of_others test.streams.now test.client number };

    fn keeps(&self, number: &u64) -> bool {
        !self.streams.has_subscription(self.client, *number)
    }
}

impl Readers {
    /// A client goes, with all its subscriptions: [`Streams::client_left`] follows. The client may be among the clients
    /// still.
    pub fn client_left(&mut self, streams: &Streams, client: u64)
        ensures exact { self.new ≡ map (filter (is_of_others streams.now client)) self.old }
        ensures there { (clients : List Client) (policy : Rules) (epoch now low last : ℕ) → Rises number_of low last streams.now.subscriptions → self.old ≡ all_readers streams.now clients policy epoch → self.new ≡ all_readers (left streams.now client now) clients policy epoch }
        ensures gone { (clients : ClientList) (policy : Rules) (epoch now low last : ℕ) → Rises number_of low last streams.now.subscriptions → self.old ≡ all_readers streams.now clients.rows policy epoch → self.new ≡ all_readers (left streams.now client now) (without clients client).rows policy epoch }
    {
        self.keep(&OfOthers { streams, client });
    }
}
