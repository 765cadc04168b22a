//! What another policy takes away and brings.

ghost use Rattle.log_readers.specs.Numbering.{Rises, number_of};
ghost use Rattle.log_readers.specs.Readers.{all_readers};
ghost use Rattle.log_readers.specs.Reloading.{alone_if, comes, goes, turned_at, turned_over};
ghost use Rattle.log_readers.specs.Turnover.{lacking};
ghost use Rattle.policy_core.specs.RuleList.{Rules};
ghost use Rattle.std.specs.Prelude.{◌≡◌, ◌++◌, ℕ, IfOk, OnOk, length, map};
ghost use Rattle.stream_registry.specs.Pairs.{is_allowed, pairs_of};

use crate::finding::is_among;
use crate::readers::Readers;
use crate::unread::is_lacked_by;
use byte_strings::Items;
use client_registry::Clients;
use policy_core::Standing;
use rows::Rows;
use std::alloc::{AllocError, Global};
use stream_registry::{LogRow, Pair, Streams, Subscription, fits, is_allowed};

/// The pairs that go and those that come, each by source and then subscription.
#[derive(Debug, Drop)]
pub struct Turnover {
    pub gone: Items<Pair>,
    pub come: Items<Pair>,
}

/// The verdict on each subscription.
fn verdicts(
    alloc: Global,
    clients: &Clients,
    policy: &Standing<'_>,
    epoch: u64,
    subscriptions: &[Subscription],
) -> Result<Items<bool>, AllocError>
    ensures { IfOk result (λ allowed. allowed ≡ map (is_allowed clients.now.rows policy.now epoch) subscriptions.now) }
{
    let mut allowed = Items::new(alloc);
    for subscription in subscriptions {
        allowed.push(is_allowed(clients, policy, epoch, &subscription.wish()))?;
    }
    Ok(allowed)
}

/// Puts the pair after those that go, where it was there and is no more, and after those that come, where it was not.
fn push_turned(
    turnover: &mut Turnover,
    pair: Pair,
    before: bool,
    after: bool,
) -> Result<(), AllocError>
    ensures gone { OnOk result (turnover.new.gone ≡ turnover.old.gone ++ alone_if (goes before after) pair) }
    ensures come { OnOk result (turnover.new.come ≡ turnover.old.come ++ alone_if (comes before after) pair) }
{
    if before && !after {
        turnover.gone.push(pair)?;
    }
    if !before && after {
        turnover.come.push(pair)?;
    }
    Ok(())
}

/// Puts the pairs of a log that go and come after the others. The log had these readers.
fn push_turned_at(
    turnover: &mut Turnover,
    subscriptions: &[Subscription],
    allowed: &[bool],
    log: &LogRow,
    numbers: &[u64],
) -> Result<(), AllocError>
    requires { length allowed.now ≡ length subscriptions.now }
    ensures gone { OnOk result (turnover.new.gone ≡ turnover.old.gone ++ turned_at goes subscriptions.now allowed.now log.now numbers.now) }
    ensures come { OnOk result (turnover.new.come ≡ turnover.old.come ++ turned_at comes subscriptions.now allowed.now log.now numbers.now) }
{
    for at in 0..subscriptions.len() {
        let subscription = &subscriptions[at];
        let pair = Pair {
            source: log.number,
            subscription: subscription.number,
        };
        let before = is_among(numbers, subscription.number);
        let after = allowed[at] && fits(log, &subscription.wish());
        push_turned(turnover, pair, before, after)?;
    }
    Ok(())
}

/// Puts the pairs of these logs that go and come after the others. The logs had these readers.
fn push_turned_over(
    turnover: &mut Turnover,
    subscriptions: &[Subscription],
    allowed: &[bool],
    logs: &[LogRow],
    slots: &[Rows<u64, 512>],
) -> Result<(), AllocError>
    requires allowed { length allowed.now ≡ length subscriptions.now }
    requires slots { length slots.now ≡ length logs.now }
    ensures gone { OnOk result (turnover.new.gone ≡ turnover.old.gone ++ turned_over goes subscriptions.now allowed.now logs.now slots.now) }
    ensures come { OnOk result (turnover.new.come ≡ turnover.old.come ++ turned_over comes subscriptions.now allowed.now logs.now slots.now) }
{
    for at in 0..logs.len() {
        let numbers = slots[at].as_slice();
        push_turned_at(turnover, subscriptions, allowed, &logs[at], numbers)?;
    }
    Ok(())
}

/// Puts the pairs that the others lack after these.
fn push_lacking(pairs: &mut Items<Pair>, from: &[Pair], others: &[Pair]) -> Result<(), AllocError>
    ensures { OnOk result (pairs.new ≡ pairs.old ++ lacking from.now others.now) }
{
    for pair in from {
        if is_lacked_by(others, *pair) {
            pairs.push(*pair)?;
        }
    }
    Ok(())
}

/// What goes and what comes where these pairs become those.
pub fn turnover_between(
    alloc: Global,
    before: &[Pair],
    after: &[Pair],
) -> Result<Turnover, AllocError>
    ensures gone { IfOk result (λ turnover. turnover.gone ≡ lacking before.now after.now) }
    ensures come { IfOk result (λ turnover. turnover.come ≡ lacking after.now before.now) }
{
    let mut turnover = Turnover {
        gone: Items::new(alloc),
        come: Items::new(alloc),
    };
    push_lacking(&mut turnover.gone, before, after)?;
    push_lacking(&mut turnover.come, after, before)?;
    Ok(turnover)
}

impl Readers {
    /// What goes and what comes where each subscription is allowed or not.
    fn turned(
        &self,
        alloc: Global,
        streams: &Streams,
        allowed: &[bool],
    ) -> Result<Turnover, AllocError>
        requires logs { length self.now ≡ length streams.now.sources }
        requires allowed { length allowed.now ≡ length streams.now.subscriptions }
        ensures gone { IfOk result (λ turnover. turnover.gone ≡ turned_over goes streams.now.subscriptions allowed.now streams.now.sources self.now) }
        ensures come { IfOk result (λ turnover. turnover.come ≡ turned_over comes streams.now.subscriptions allowed.now streams.now.sources self.now) }
    {
        let mut turnover = Turnover {
            gone: Items::new(alloc),
            come: Items::new(alloc),
        };
        push_turned_over(
            &mut turnover,
            streams.subscriptions(),
            allowed,
            streams.sources(),
            self.rows(),
        )?;
        Ok(turnover)
    }

    /// What goes and what comes where this policy is in force, under the number `epoch`, in place of the one of which
    /// the readers are kept. It is asked once for each subscription.
    pub fn turnover_under(
        &self,
        alloc: Global,
        streams: &Streams,
        clients: &Clients,
        policy: &Standing<'_>,
        epoch: u64,
    ) -> Result<Turnover, AllocError>
        requires { length self.now ≡ length streams.now.sources }
        ensures gone { (old : Rules) (number low last : ℕ) → Rises number_of low last streams.now.subscriptions → self.now ≡ all_readers streams.now clients.now.rows old number → IfOk result (λ turnover. turnover.gone ≡ lacking (pairs_of streams.now clients.now.rows old number) (pairs_of streams.now clients.now.rows policy.now epoch)) }
        ensures come { (old : Rules) (number low last : ℕ) → Rises number_of low last streams.now.subscriptions → self.now ≡ all_readers streams.now clients.now.rows old number → IfOk result (λ turnover. turnover.come ≡ lacking (pairs_of streams.now clients.now.rows policy.now epoch) (pairs_of streams.now clients.now.rows old number)) }
    {
        let allowed = verdicts(alloc, clients, policy, epoch, streams.subscriptions())?;
        self.turned(alloc, streams, allowed.as_slice())
    }
}
