ghost use Rattle.log_readers.specs.Readers.{all_readers, readers_at};
ghost use Rattle.std.specs.Prelude.{◌≡◌, ◌<◌, ◌≤◌, ◌++◌, ◌∷◌, [], Ok, length};
ghost use Rattle.stream_registry.specs.Adding.{added, adding_of};

use crate::readers::Readers;
use client_registry::Clients;
use policy_core::Standing;
use rows::Rows;
use stream_registry::{Adding, LogRow, Streams, Subscription, Wanted, reads};

/// Asks which of these subscriptions read the log.
fn ask_at(
    numbers: &mut Rows<u64, 512>,
    clients: &Clients,
    policy: &Standing<'_>,
    epoch: u64,
    subscriptions: &[Subscription],
    log: &LogRow,
)
    requires { length subscriptions.now ≤ 512 }
    ensures { numbers.new ≡ readers_at clients.now.rows policy.now epoch subscriptions.now log.now }
{
    numbers.clear();
    for subscription in subscriptions {
        if reads(clients, policy, epoch, log, &subscription.wish()) {
            numbers.push(subscription.number);
        }
    }
}

impl Readers {
    /// A log comes after the others, as many as `logs`.
    pub(crate) fn add_log(
        &mut self,
        clients: &Clients,
        policy: &Standing<'_>,
        epoch: u64,
        logs: usize,
        subscriptions: &[Subscription],
        log: &LogRow,
    )
        requires same { length self.old ≡ logs }
        requires room { logs < 768 }
        requires few { length subscriptions.now ≤ 512 }
        ensures { self.new ≡ self.old ++ readers_at clients.now.rows policy.now epoch subscriptions.now log.now ∷ [] }
    {
        ask_at(
            &mut self.slots[logs],
            clients,
            policy,
            epoch,
            subscriptions,
            log,
        );
        self.used = logs + 1;
    }

    /// A client publishes: [`Streams::add_publication`] follows. `adding` is the answer of [`Streams::adding`]. Where a log
    /// is made the policy, which goes by the number `epoch`, is asked once for each subscription that fits.
    pub fn add_publication(
        &mut self,
        streams: &Streams,
        clients: &Clients,
        policy: &Standing<'_>,
        epoch: u64,
        number: u64,
        client: u64,
        wanted: &Wanted,
        place: u64,
        adding: Adding,
    )
        requires exact { self.old ≡ all_readers streams.now clients.now.rows policy.now epoch }
        requires taken { adding_of streams.now wanted.now ≡ Ok adding }
        ensures { self.new ≡ all_readers (added streams.now number client wanted.now place adding) clients.now.rows policy.now epoch }
    {
        match adding {
            Adding::Join { .. } => {}
            Adding::Make { session } => {
                let log = streams.log(number, wanted, place, session);
                let logs = streams.sources().len();
                self.add_log(clients, policy, epoch, logs, streams.subscriptions(), &log);
            }
        }
    }
}
