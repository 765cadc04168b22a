//! A driver ends.

ghost use Rattle.std.specs.Prelude.{◌≡◌, ◌+◌, ◌*◌, ◌^◌, ◌<◌, ◌≤◌, ◌↔◌, IfSome, IsSome, length, sum_by};

use crate::client::Client;
use crate::driver::Driver;
use crate::parts::PUBLICATIONS;
use crate::preparing::Kept;
use crate::starting::Ledger;
use log_slots::{Amount, OfClients, ROOM, settle_all};
use media_agents::{Clock, DriverNaming, Slots};
use std::sync::Wait;
use std::sync::ledger::Share;
use std::thread::Threads;

/// What a client counted that is let go, and its part.
fn settled<N: DriverNaming, C: Clock + Drop>(
    client: Client<N, C>,
) -> (Amount<N>, Share<OfClients<N>>)
    ensures { (result.0 ≡ record { parts = 1; number = client.counted }) × (result.1.parts ≡ 1) }
{
    let Client { counted, part, .. } = client;
    (counted, part)
}

/// These clients come back.
fn settle_clients<N: DriverNaming, C: Clock + Drop>(
    clients: Vec<Client<N, C>>,
    ledger: &mut Ledger<N>,
)
    requires total { ledger.old.total.amount < 2 ^ 64 }
    requires parts { ledger.old.clients.parts ≤ N.client_parts }
    ensures clients { (ledger.new.clients.parts ≡ ledger.old.clients.parts + length clients.items) × (ledger.new.clients.parts ≤ N.client_parts) }
    ensures parts { ledger.new.counted.parts ≡ ledger.old.counted.parts + length clients.items }
    ensures number { ledger.new.counted.number ≡ ledger.old.counted.number + sum_by (λ client. client.counted) clients.items }
    ensures total { ledger.new.total ≡ ledger.old.total }
{
    for client in clients {
        let (counted, part) = settled(client);
        ledger.take_back(counted, part);
    }
}

/// How many messages all logs took, where the clients' amounts came together. It is what the slots had at first, but for what they
/// have left: by the ledger that is what the clients counted.
fn taken<N: DriverNaming, R: Wait>(rt: &R, slots: &Slots<N>, ledger: Ledger<N>) -> u64
    requires total { (ledger.total.amount ≡ 256 * 2 ^ 55) × (ledger.total.parts ≡ 321) }
    requires parts { ledger.counted.parts ≡ 65 }
    ensures { result ≡ ledger.counted.number }
{
    let Ledger {
        total,
        counted: mut all,
        clients: _,
    } = ledger;
    let counted = all.number();
    let settled = settle_all(rt, &slots.publications, &mut all, &total);
    if settled != PUBLICATIONS as usize {
        return counted;
    }
    all.audit(&total);
    PUBLICATIONS as u64 * ROOM - (all.number() - counted)
}

impl<N: DriverNaming, R: Threads + Wait + Drop, C: Clock + Drop> Driver<N, R, C> {
    /// Stops the driver. How many messages all logs took, where all clients came back: by the ledger it is what they counted
    /// together, those taken back before among them. It takes no memory.
    pub fn stop(self, clients: Vec<Client<N, C>>) -> Option<u64>
        ensures all { IsSome result ↔ (self.out ≤ length clients.items) }
        ensures counted { IfSome result (λ number. number ≡ self.counted + sum_by (λ client. client.counted) clients.items) }
    {
        let Driver {
            rt,
            clock: _,
            alloc: _,
            running,
            kept,
            out,
        } = self;
        let Kept {
            common,
            mut ledger,
            queue,
            elicitations: _,
            seats: _,
        } = kept;
        running.end(&rt, &common.stop, &queue);
        let here = clients.len() as u64;
        settle_clients(clients, &mut ledger);
        if here < out {
            return None;
        }
        Some(taken(&rt, &common.slots, ledger))
    }
}
