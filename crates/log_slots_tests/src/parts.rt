// What a driver has, as far as logs and the ledger of messages go.
ghost use Rattle.std.specs.Prelude.{◌≡◌, ◌*◌, ◌^◌, OnOk};

use crate::hands::Hand;
use crate::opening::{Fresh, opened};
use crate::registries::{Numbers, filled};
use driver_core::Registry;
use log_arena::Arena;
use log_slots::{Amount, Naming, OfMessages, ROOM, Region, Slot};
use log_steps::Answer;
use std::alloc::{AllocError, Global};
use std::sync::ledger::{Blank, Total};
use std::sync::{Mutex, Wait};

/// The parts of a driver with two clients and two slots.
#[derive(Drop)]
pub(crate) struct Parts<N: Naming> {
    pub(crate) registry: Registry,
    pub(crate) region: Region<N>,
    pub(crate) total: Total<OfMessages<N>>,
    pub(crate) first: Hand<N>,
    pub(crate) second: Hand<N>,
    pub(crate) slots: Vec<Mutex<Slot<N>>>,
    pub ghost total_is: { (total.amount ≡ 2 * 2 ^ 55) × (total.parts ≡ 4) },
}

// Two slots.
fn two_slots<N: Naming>(
    alloc: Global,
    amount: &mut Amount<N>,
) -> Result<Vec<Mutex<Slot<N>>>, AllocError>
    requires { amount.old ≡ record { parts = 4; number = 2 * 2 ^ 55 } }
    ensures { OnOk result (amount.new ≡ record { parts = 2; number = 0 }) }
{
    let mut slots = Vec::new(alloc);
    slots.push(Mutex::new(Slot::new(amount.split(ROOM))))?;
    slots.push(Mutex::new(Slot::new(amount.split(ROOM))))?;
    Ok(slots)
}

// Two clients.
fn two_hands<N: Naming>(amount: Amount<N>) -> (Hand<N>, Hand<N>)
    requires { amount ≡ record { parts = 2; number = 0 } }
{
    let mut amount = amount;
    let other = amount.split(0);
    (Hand::new(amount), Hand::new(other))
}

/// The parts that `N` names, in which nothing was taken yet.
pub(crate) fn make_parts<N: Naming>(
    alloc: Global,
    arena: Arena,
    messages: Blank,
) -> Result<Parts<N>, AllocError>
    requires home { arena.home ≡ N.home }
    requires messages { (messages.name ≡ N.ledger) × (messages.parts ≡ N.parts) × (messages.parts ≡ 4) }
{
    let registry = filled(alloc)?;
    let (total, mut amount) = Amount::open(messages, 2);
    let slots = two_slots(alloc, &mut amount)?;
    let (first, second) = two_hands(amount);
    Ok(Parts {
        registry,
        region: Region::new(arena),
        total,
        first,
        second,
        slots,
    })
}

// The log opens in the slot, and is read by the subscription.
fn open_in<N: Naming>(slot: &mut Slot<N>, fresh: Fresh<N>, numbers: Numbers) -> bool {
    let Fresh {
        log,
        session,
        stream,
        of: _,
    } = fresh;
    slot.open(log, session, stream).is_ok()
        && slot.rejoin(numbers.source, &[numbers.subscription]) == Some(0)
}

impl<N: Naming> Parts<N> {
    /// Whether the publication's log opens in the first slot, read by its subscription from the start.
    pub(crate) fn opens<R: Wait>(&mut self, rt: &R, alloc: Global, numbers: Numbers) -> bool {
        let Some(fresh) = opened(alloc, &mut self.region, &self.registry, numbers.source) else {
            return false;
        };
        match self.slots.first() {
            Some(slot) => open_in(&mut *slot.lock(rt), fresh, numbers),
            None => false,
        }
    }
    /// What is answered to a message that the first client offers, in the first slot, by the publication's registration.
    pub(crate) fn offers<R: Wait>(&mut self, rt: &R, numbers: Numbers) -> Option<Answer> {
        let slot = self.slots.first()?;
        Some(self.first.offers(rt, slot, &self.registry, numbers.source))
    }
}
