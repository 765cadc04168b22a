ghost use Rattle.log_readers.specs.Numbering.{Rises, number_of};
ghost use Rattle.log_readers.specs.Readers.{all_readers, forgotten, forgotten_at, is_unlike};
ghost use Rattle.client_registry.specs.declared.client.Client.{Client};
ghost use Rattle.policy_core.specs.RuleList.{Rules};
ghost use Rattle.std.specs.List.{Contains};
ghost use Rattle.std.specs.Prelude.{◌≡◌, ◌≤◌, ℕ, List, length, take, true};
ghost use Rattle.stream_registry.specs.Adding.{has_room_for_subscription, subscribed};
ghost use Rattle.stream_registry.specs.Leaving.{has_subscription, unsubscribed};
ghost use Rattle.stream_registry.specs.Wish.{row_of};

use crate::readers::Readers;
use client_registry::Clients;
use policy_core::Standing;
use rows::{Rows, Test};
use stream_registry::{LogRow, Streams, Wish, fits};

/// Keeps all numbers but this one.
#[derive(Clone, Copy)]
struct Unlike {
    number: u64,
}

impl Test<u64> for Unlike {
    ghost keeps = { λ test number. is_unlike test.number number };

    fn keeps(&self, number: &u64) -> bool {
        *number != self.number
    }
}

/// Takes the subscription's number away from those of the log. Where they don't fit it is not among them.
fn forget_at(numbers: &mut Rows<u64, 512>, log: &LogRow, wish: &Wish<'_>)
    ensures { numbers.new ≡ forgotten_at (row_of wish.now) log.now numbers.old }
{
    if fits(log, wish) {
        numbers.retain(&Unlike {
            number: wish.number,
        });
    }
}

/// Takes the subscription's number away from those of the logs that it fits.
fn forget_all(slots: &mut [Rows<u64, 512>], logs: &[LogRow], wish: &Wish<'_>)
    requires { length slots.old ≡ length logs.now }
    ensures { slots.new ≡ forgotten (row_of wish.now) logs.now slots.old }
{
    for at in 0..logs.len() {
        forget_at(&mut slots[at], &logs[at], wish);
    }
}

/// Takes the subscription's number away from those of the logs that it fits; there may be further slots.
fn forget_used(slots: &mut Vec<Rows<u64, 512>>, logs: &[LogRow], wish: &Wish<'_>)
    requires { length logs.now ≤ length slots.old.items }
    ensures slots { length slots.new.items ≡ length slots.old.items }
    ensures forgotten { take (length logs.now) slots.new.items ≡ forgotten (row_of wish.now) logs.now (take (length logs.now) slots.old.items) }
{
    let (used, _) = slots.as_mut_slice().split_at_mut(logs.len());
    forget_all(used, logs, wish);
}

impl Readers {
    /// A client subscribes as it wishes: [`Streams::add_subscription`] follows. The policy, which goes by the number
    /// `epoch`, is asked once.
    pub fn add_subscription(
        &mut self,
        streams: &Streams,
        clients: &Clients,
        policy: &Standing<'_>,
        epoch: u64,
        wish: &Wish<'_>,
    )
        requires exact { self.old ≡ all_readers streams.now clients.now.rows policy.now epoch }
        requires room { has_room_for_subscription streams.now ≡ true }
        ensures { self.new ≡ all_readers (subscribed streams.now wish.now.number wish.now.client wish.now.channel.now wish.now.stream) clients.now.rows policy.now epoch }
    {
        self.note(clients, policy, epoch, streams.sources(), wish);
    }

    /// The subscription reads none of these logs any more.
    fn forget(&mut self, logs: &[LogRow], wish: &Wish<'_>)
        requires { length self.old ≡ length logs.now }
        ensures { self.new ≡ forgotten (row_of wish.now) logs.now self.old }
    {
        forget_used(&mut self.slots, logs, wish);
    }

    /// This subscription goes: [`Streams::remove_subscription`] follows. Its number is looked for at the logs that it fits alone.
    pub fn remove_row(&mut self, streams: &Streams, wish: &Wish<'_>)
        requires { length self.old ≡ length streams.now.sources }
        ensures { (clients : List Client) (policy : Rules) (epoch client low last : ℕ) → Rises number_of low last streams.now.subscriptions → Contains streams.now.subscriptions (row_of wish.now) → has_subscription streams.now client wish.now.number ≡ true → self.old ≡ all_readers streams.now clients policy epoch → self.new ≡ all_readers (unsubscribed streams.now client wish.now.number) clients policy epoch }
    {
        self.forget(streams.sources(), wish);
    }
}
