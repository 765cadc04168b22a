//! Who reads a log, from what is kept: the policy is not asked.

ghost use Rattle.log_readers.specs.Finding.{is_among, numbers_at};
ghost use Rattle.log_readers.specs.Numbering.{Rises, source_of};
ghost use Rattle.log_readers.specs.Readers.{all_readers};
ghost use Rattle.client_registry.specs.declared.client.Client.{Client};
ghost use Rattle.policy_core.specs.RuleList.{Rules};
ghost use Rattle.std.specs.List.{list_any};
ghost use Rattle.std.specs.Prelude.{◌≡◌, ◌≤◌, ◌==◌, ℕ, List, filter, length, map};
ghost use Rattle.stream_registry.specs.Pairs.{is_of, pairs_of};

use crate::readers::Readers;
use rows::Rows;
use stream_registry::{LogRow, Streams};

/// Whether the number is one of these.
pub(crate) fn is_among(numbers: &[u64], number: u64) -> bool
    ensures { result ≡ is_among numbers.now number }
{
    numbers.iter().any(|other| *other == number)
}

/// The numbers that stand at the log of that source: none where it is not there.
fn numbers_at<'a>(logs: &[LogRow], slots: &'a [Rows<u64, 512>], source: u64) -> &'a [u64]
    requires { length slots.now ≡ length logs.now }
    ensures exact { result.now ≡ numbers_at source logs.now slots.now }
    ensures few { length result.now ≤ 512 }
{
    for at in 0..logs.len() {
        if logs[at].number == source {
            return slots[at].as_slice();
        }
    }
    &[]
}

impl Readers {
    /// The subscriptions that read the log of that source, by their numbers: none where it is not there.
    pub fn of_source(&self, streams: &Streams, source: u64) -> &[u64]
        requires { length self.now ≡ length streams.now.sources }
        ensures exact { (clients : List Client) (policy : Rules) (epoch low last : ℕ) → Rises source_of low last streams.now.sources → self.now ≡ all_readers streams.now clients policy epoch → result.now ≡ map (λ pair. pair.subscription) (filter (λ pair. pair.source == source) (pairs_of streams.now clients policy epoch)) }
        ensures few { length result.now ≤ 512 }
    {
        numbers_at(streams.sources(), self.rows(), source)
    }

    /// Whether the subscription of this number reads the log of that source. It takes no memory.
    pub fn has(&self, streams: &Streams, source: u64, number: u64) -> bool
        requires { length self.now ≡ length streams.now.sources }
        ensures { (clients : List Client) (policy : Rules) (epoch low last : ℕ) → Rises source_of low last streams.now.sources → self.now ≡ all_readers streams.now clients policy epoch → result ≡ list_any (is_of source number) (pairs_of streams.now clients policy epoch) }
    {
        is_among(self.of_source(streams, source), number)
    }
}
