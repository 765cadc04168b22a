//! The pairs, all and those that go with a subscription, with clients or with logs, from what is kept: the policy is not asked.

ghost use Rattle.log_readers.specs.Readers.{all_readers};
ghost use Rattle.log_readers.specs.Turnover.{is_going, is_had_by, is_of_any, is_of_client, is_of_closing, is_of_number, pair_at, told, told_at, told_to};
ghost use Rattle.client_registry.specs.declared.client.Client.{Client};
ghost use Rattle.policy_core.specs.RuleList.{Rules};
ghost use Rattle.std.specs.List.{list_any};
ghost use Rattle.std.specs.Prelude.{◌≡◌, ◌==◌, ◌++◌, ℕ, List, IfOk, OnOk, filter, length, map, true};
ghost use Rattle.log_readers.specs.Numbering.{Rises, number_of};
ghost use Rattle.std.specs.List.{Contains};
ghost use Rattle.stream_registry.specs.Pairs.{pairs_of};
ghost use Rattle.stream_registry.specs.Wish.{row_of};

use crate::readers::Readers;
use byte_strings::Items;
use rows::{Rows, Test};
use std::alloc::{AllocError, Global};
use stream_registry::{LogPlace, LogRow, Pair, Streams, Subscription, Wish, fits};

/// Keeps all pairs.
#[derive(Clone, Copy)]
struct Each;

impl Test<Pair> for Each {
    ghost keeps = { λ test pair. true };

    fn keeps(&self, _pair: &Pair) -> bool {
        true
    }
}

/// Keeps the pairs of the subscription of this number.
#[derive(Clone, Copy)]
struct OfNumber {
    number: u64,
}

impl Test<Pair> for OfNumber {
    ghost keeps = { λ test pair. is_of_number test.number pair };

    fn keeps(&self, pair: &Pair) -> bool {
        pair.subscription == self.number
    }
}

/// Keeps the pairs of this client's subscriptions.
#[derive(Clone, Copy)]
struct OfClient<'a> {
    streams: &'a Streams,
    client: u64,
}

impl Test<Pair> for OfClient<'_> {
    ghost keeps = { λ test pair. is_of_client test.streams.now test.client pair };

    fn keeps(&self, pair: &Pair) -> bool {
        self.streams
            .has_subscription(self.client, pair.subscription)
    }
}

/// Whether the pair is of one of these logs.
fn is_of_closing(closes: &[LogPlace], pair: Pair) -> bool
    ensures { result ≡ is_of_closing closes.now pair }
{
    closes.iter().any(|closed| closed.source == pair.source)
}

/// Whether the subscription is one of these clients'.
fn is_of_one(subscription: &Subscription, clients: &[u64]) -> bool
    ensures { result ≡ list_any (λ client. subscription.now.client == client) clients.now }
{
    clients.iter().any(|client| subscription.client == *client)
}

/// Whether the subscription of this number is one of these clients'.
fn is_had_by_any(subscriptions: &[Subscription], number: u64, clients: &[u64]) -> bool
    ensures { result ≡ list_any (is_had_by number clients.now) subscriptions.now }
{
    subscriptions
        .iter()
        .any(|row| row.number == number && is_of_one(row, clients))
}

/// Whether the pair is of a subscription of one of these clients.
pub fn is_of_any(streams: &Streams, clients: &[u64], pair: Pair) -> bool
    ensures { result ≡ is_of_any streams.now clients.now pair }
{
    is_had_by_any(streams.subscriptions(), pair.subscription, clients)
}

/// Keeps the pairs that go where these clients and these logs go.
#[derive(Clone, Copy)]
struct Going<'a> {
    streams: &'a Streams,
    clients: &'a [u64],
    closes: &'a [LogPlace],
}

impl Test<Pair> for Going<'_> {
    ghost keeps = { λ test pair. is_going test.streams.now test.clients.now test.closes.now pair };

    fn keeps(&self, pair: &Pair) -> bool {
        is_of_any(self.streams, self.clients, *pair) || is_of_closing(self.closes, *pair)
    }
}

/// Puts the pairs of this log that pass the test after the others.
fn push_row<S: Test<Pair>>(
    pairs: &mut Items<Pair>,
    source: u64,
    numbers: &[u64],
    test: &S,
) -> Result<(), AllocError>
    ensures { OnOk result (pairs.new ≡ pairs.old ++ filter (S.keeps test.now) (map (pair_at source) numbers.now)) }
{
    for number in numbers {
        let pair = Pair {
            source,
            subscription: *number,
        };
        if test.keeps(&pair) {
            pairs.push(pair)?;
        }
    }
    Ok(())
}

/// Puts the pairs of these logs that pass the test after the others.
fn push_rows<S: Test<Pair>>(
    pairs: &mut Items<Pair>,
    logs: &[LogRow],
    slots: &[Rows<u64, 512>],
    test: &S,
) -> Result<(), AllocError>
    requires { length slots.now ≡ length logs.now }
    ensures { OnOk result (pairs.new ≡ pairs.old ++ filter (S.keeps test.now) (told logs.now slots.now)) }
{
    for at in 0..logs.len() {
        push_row(pairs, logs[at].number, slots[at].as_slice(), test)?;
    }
    Ok(())
}

/// Puts the pair of the subscription with this log after the others. Where they don't fit, its number is not looked for.
fn push_fitting(
    pairs: &mut Items<Pair>,
    log: &LogRow,
    numbers: &[u64],
    wish: &Wish<'_>,
) -> Result<(), AllocError>
    ensures { OnOk result (pairs.new ≡ pairs.old ++ filter (is_of_number wish.now.number) (told_at (row_of wish.now) log.now numbers.now)) }
{
    if fits(log, wish) {
        let test = OfNumber {
            number: wish.number,
        };
        push_row(pairs, log.number, numbers, &test)?;
    }
    Ok(())
}

/// Puts the pairs of the subscription with these logs after the others.
fn push_all_fitting(
    pairs: &mut Items<Pair>,
    logs: &[LogRow],
    slots: &[Rows<u64, 512>],
    wish: &Wish<'_>,
) -> Result<(), AllocError>
    requires { length slots.now ≡ length logs.now }
    ensures { OnOk result (pairs.new ≡ pairs.old ++ filter (is_of_number wish.now.number) (told_to (row_of wish.now) logs.now slots.now)) }
{
    for at in 0..logs.len() {
        push_fitting(pairs, &logs[at], slots[at].as_slice(), wish)?;
    }
    Ok(())
}

impl Readers {
    /// The slots that are those of logs.
    pub(crate) fn rows(&self) -> &[Rows<u64, 512>]
        ensures { result.now ≡ self.now }
    {
        &self.slots[..self.used]
    }

    /// The pairs that pass the test.
    fn pairs_that<S: Test<Pair>>(
        &self,
        alloc: Global,
        logs: &[LogRow],
        test: &S,
    ) -> Result<Items<Pair>, AllocError>
        requires { length self.now ≡ length logs.now }
        ensures { IfOk result (λ pairs. pairs ≡ filter (S.keeps test.now) (told logs.now self.now)) }
    {
        let mut pairs = Items::new(alloc);
        push_rows(&mut pairs, logs, self.rows(), test)?;
        Ok(pairs)
    }

    /// All pairs, by source and then subscription.
    pub fn pairs(&self, alloc: Global, streams: &Streams) -> Result<Items<Pair>, AllocError>
        requires { length self.now ≡ length streams.now.sources }
        ensures { (clients : List Client) (policy : Rules) (epoch : ℕ) → self.now ≡ all_readers streams.now clients policy epoch → IfOk result (λ pairs. pairs ≡ pairs_of streams.now clients policy epoch) }
    {
        self.pairs_that(alloc, streams.sources(), &Each)
    }

    /// The pairs of this subscription, by source. Its number is looked for at the logs that it fits alone.
    pub fn pairs_of_row(
        &self,
        alloc: Global,
        streams: &Streams,
        wish: &Wish<'_>,
    ) -> Result<Items<Pair>, AllocError>
        requires { length self.now ≡ length streams.now.sources }
        ensures { (clients : List Client) (policy : Rules) (epoch low last : ℕ) → Rises number_of low last streams.now.subscriptions → Contains streams.now.subscriptions (row_of wish.now) → self.now ≡ all_readers streams.now clients policy epoch → IfOk result (λ pairs. pairs ≡ filter (is_of_number wish.now.number) (pairs_of streams.now clients policy epoch)) }
    {
        let mut pairs = Items::new(alloc);
        push_all_fitting(&mut pairs, streams.sources(), self.rows(), wish)?;
        Ok(pairs)
    }

    /// The pairs of the client's subscriptions, by source and then subscription.
    pub fn pairs_of_client(
        &self,
        alloc: Global,
        streams: &Streams,
        client: u64,
    ) -> Result<Items<Pair>, AllocError>
        requires { length self.now ≡ length streams.now.sources }
        ensures { (clients : List Client) (policy : Rules) (epoch : ℕ) → self.now ≡ all_readers streams.now clients policy epoch → IfOk result (λ pairs. pairs ≡ filter (is_of_client streams.now client) (pairs_of streams.now clients policy epoch)) }
    {
        self.pairs_that(alloc, streams.sources(), &OfClient { streams, client })
    }

    /// The pairs that go where these clients and these logs go, by source and then subscription.
    pub fn pairs_of_going(
        &self,
        alloc: Global,
        streams: &Streams,
        clients: &[u64],
        closes: &[LogPlace],
    ) -> Result<Items<Pair>, AllocError>
        requires { length self.now ≡ length streams.now.sources }
        ensures { (rows : List Client) (policy : Rules) (epoch : ℕ) → self.now ≡ all_readers streams.now rows policy epoch → IfOk result (λ pairs. pairs ≡ filter (is_going streams.now clients.now closes.now) (pairs_of streams.now rows policy epoch)) }
    {
        let going = Going {
            streams,
            clients,
            closes,
        };
        self.pairs_that(alloc, streams.sources(), &going)
    }
}
