//! A client of a driver.

ghost use Rattle.media_driver.specs.Clients.{Learns};
ghost use Rattle.std.specs.Prelude.{◌≡◌, ◌≤◌};

use crate::hints::Hints;
use crate::offering::Found;
use crate::pacing::Pace;
use crate::remembering::Said;
use audit_ring::AuditOf;
use decision_cache::Cache;
use log_slots::{Amount, AtEnd, OfClients};
use media_agents::{Clock, CommandSender, Dated, DriverNaming, LogAt, Mail, Slots};
use published_registry::{Pass, Receipt, caches_stay_right_of_later_looks};
use rtrb::Consumer;
use std::alloc::Global;
use std::marker::Model;
use std::sync::Arc;
use std::sync::ledger::Share;

/// A client of a driver. It acts for the principal whom its driver's owner named.
#[derive(Drop)]
pub struct Client<N: DriverNaming, C: Clock> {
    pub(crate) number: u64,
    /// Which of the driver's seats it has.
    pub(crate) place: u16,
    /// The correlation id of its last command.
    pub(crate) correlation: u64,
    /// The greatest moment of its commands and offers so far, in nanoseconds.
    pub(crate) moment: u64,
    /// It is taken out for as long as a look lasts.
    pub(crate) pass: Option<Pass>,
    /// Its way into the queue, within its share.
    pub(crate) queue: CommandSender,
    pub(crate) mails: Consumer<Mail<N>, Global>,
    /// Verdicts that the policy gave lately.
    pub(crate) cache: Cache,
    /// How many of its messages were counted: what it has of the ledger of all messages.
    pub(crate) counted: Amount<N>,
    /// That it is out.
    pub(crate) part: Share<OfClients<N>>,
    /// That no more could be counted when a message was not; none before.
    pub(crate) ended: Option<AtEnd<N>>,
    /// What was decided for it.
    pub(crate) audit: AuditOf<Dated>,
    pub(crate) slots: Arc<Slots<N>>,
    pub(crate) clock: C,
    pub(crate) alloc: Global,
    /// Where the log of the last offer is, by its registration.
    pub(crate) offered: Option<(u64, Found)>,
    /// What was decided of the last offer, and by which registry.
    pub(crate) said: Option<Said>,
    /// Where the log of the last poll is.
    pub(crate) polled: Option<LogAt>,
    /// What the last polls of that log gave.
    pub(crate) pace: Pace,
    /// Those of all logs of publications.
    pub(crate) hints: Arc<Hints>,
}

impl<N: DriverNaming, C: Clock> Model for Client<N, C> {
    ghost use Rattle.driver_core.specs.Cached.{AreCached};
    ghost use Rattle.media_driver.specs.Clients.{Attached};
    ghost use Rattle.media_driver.specs.Remembering.{IsRemembered};
    ghost use Rattle.published_registry.specs.Histories.{history_in, registry_of};
    ghost use Rattle.rtrb.specs.Ring.{known_items, received};
    ghost use Rattle.std.specs.Prelude.{◌≡◌, IsSome, is_some};

    ghost Value = { Attached };

    ghost view = { λ client. record {
      number = client.number;
      correlation = client.correlation;
      moment = client.moment;
      known = history_in client.pass;
      commands = client.queue;
      taken = received client.mails;
      waiting = known_items client.mails;
      counted = client.counted.number;
      ended = is_some client.ended;
      audited = client.audit;
    } };

    ghost invariant = { λ client. IsSome client.pass × ((history_in client.pass).book ≡ N.book)
        × AreCached (registry_of (history_in client.pass)) client.cache × (client.counted.parts ≡ 1) × (client.part.parts ≡ 1)
        × IsRemembered client.number client.said (history_in client.pass) };
}

impl<N: DriverNaming, C: Clock> Client<N, C> {
    /// The id by which the driver knows it.
    pub fn number(&self) -> u64
        ensures { result ≡ self.now.number }
    {
        self.number
    }

    /// The moment by its clock. One before the last moment of its commands and offers counts as that one.
    pub(crate) fn now(&self) -> u64
        ensures { self.now.moment ≤ result }
    {
        self.clock.now().max(self.moment)
    }

    /// From now on no look of this client is at a registry before the one that the receipt names. It waits for nobody.
    pub fn learn(&mut self, receipt: &Receipt)
        requires { receipt.now.book ≡ N.book }
        ensures { Learns receipt.now self.old self.new }
    {
        caches_stay_right_of_later_looks();
        let Some(pass) = &mut self.pass else {
            unreachable!()
        };
        pass.learn(receipt);
    }
}
