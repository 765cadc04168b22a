// Clients that offer, each with what was counted for it.
ghost use Rattle.log_slots.specs.Counting.{taken_by};
ghost use Rattle.std.specs.Prelude.{◌≡◌, ◌<◌, ◌^◌, true, IfSome, MatchBool};

use crate::registries::CLIENT;
use driver_core::Registry;
use log_slots::{Amount, Naming, OfMessages, Slot};
use log_steps::{Answer, Answered, Offered};
use std::sync::ledger::Total;
use std::sync::{Mutex, Wait};

/// What was counted for a client, how many of its messages logs took, and whether just these were counted.
#[derive(Drop)]
pub(crate) struct Hand<N: Naming> {
    pub(crate) counted: Amount<N>,
    pub(crate) taken: u64,
    pub(crate) exact: bool,
    pub ghost one_part: { counted.parts ≡ 1 },
    pub ghost just_these: { exact ≡ true → counted.number ≡ taken },
}

// Whether the answer says that a log took a message.
fn is_taken(answer: &Answer) -> bool
    ensures { MatchBool result (taken_by answer.now ≡ 1) (taken_by answer.now ≡ 0) }
{
    matches!(answer, Answer::Offered(Offered::At(_)))
}

// How many messages a log took that gave this answer.
fn taken_by(told: &Answered) -> u64
    ensures { result ≡ taken_by told.now.answer }
{
    if is_taken(&told.answer) { 1 } else { 0 }
}

impl<N: Naming> Hand<N> {
    /// A client that has offered nothing yet.
    pub(crate) fn new(counted: Amount<N>) -> Hand<N>
        requires { counted ≡ record { parts = 1; number = 0 } }
    {
        Hand {
            counted,
            taken: 0,
            exact: true,
        }
    }

    /// Offers one message by a registration of the client.
    pub(crate) fn offers<R: Wait>(
        &mut self,
        rt: &R,
        slot: &Mutex<Slot<N>>,
        registry: &Registry,
        registration: u64,
    ) -> Answer {
        let Hand {
            counted,
            taken,
            exact,
        } = self;
        let mut end = None;
        let timeout = registry.settings().connection_timeout;
        let request = registry.offering(CLIENT, registration);
        let told = slot
            .lock(rt)
            .offer(counted, &mut end, timeout, &request, 0, b"abc");
        match taken.checked_add(taken_by(&told)) {
            Some(sum) if end.is_none() => *taken = sum,
            _ => *exact = false,
        }
        told.answer
    }

    /// Offers so many messages.
    pub(crate) fn offers_all<R: Wait>(
        self,
        rt: &R,
        slot: &Mutex<Slot<N>>,
        registry: &Registry,
        registration: u64,
        times: u64,
    ) -> Hand<N> {
        let mut hand = self;
        for _ in 0..times {
            drop(hand.offers(rt, slot, registry, registration));
        }
        hand
    }
}

/// What was counted for two clients together, and how many messages that is.
pub(crate) fn together<N: Naming>(
    one: Hand<N>,
    other: Hand<N>,
    total: &Total<OfMessages<N>>,
) -> Option<(Amount<N>, u64)>
    requires { total.now.amount < 2 ^ 64 }
    ensures { IfSome result (λ both. both.0 ≡ record { parts = 2; number = both.1 }) }
{
    if !one.exact || !other.exact {
        return None;
    }
    let taken = one.taken.checked_add(other.taken)?;
    let mut counted = one.counted;
    counted.merge(other.counted, total);
    Some((counted, taken))
}
