//! The memory that a driver takes as it starts: what counts its messages, and what its threads have in common.

ghost use Rattle.std.specs.Prelude.{◌≡◌, ◌+◌, ◌*◌, ◌^◌, ◌<◌, ◌≤◌, IfOk, OnOk};

use crate::parts::{Blanks, IMAGES, PUBLICATIONS};
use log_slots::{Amount, LogSlot, Naming, OfClients, OfMessages, ROOM, Slot};
use media_agents::{Desk, DriverNaming, Journal, Slots};
use std::alloc::{AllocError, Global};
use std::sync::atomic::AtomicBool;
use std::sync::ledger::{Share, Total};
use std::sync::{Arc, Mutex};

/// A value that several threads have.
pub(crate) fn shared<T: Drop>(alloc: Global, value: T) -> Result<Arc<T>, AllocError> {
    match Arc::new(alloc, value) {
        Ok(shared) => Ok(shared),
        Err(_) => Err(AllocError),
    }
}

/// The slots for the logs of publications, each with what is counted of it at most.
fn publication_slots<N: Naming>(
    alloc: Global,
    amount: &mut Amount<N>,
) -> Result<Vec<Mutex<Slot<N>>>, AllocError>
    requires { amount.old ≡ record { parts = 321; number = 256 * 2 ^ 55 } }
    ensures { OnOk result (amount.new ≡ record { parts = 65; number = 0 }) }
{
    let mut slots = Vec::with_capacity(alloc, PUBLICATIONS as usize)?;
    for _made in 0..PUBLICATIONS {
        slots.push(Mutex::new(Slot::new(amount.split(ROOM))))?;
    }
    Ok(slots)
}

/// The slots for the logs of images.
fn image_slots<N: Naming>(alloc: Global) -> Result<Vec<Mutex<LogSlot<N>>>, AllocError> {
    let mut slots = Vec::with_capacity(alloc, IMAGES as usize)?;
    for _made in 0..IMAGES {
        slots.push(Mutex::new(LogSlot::new()))?;
    }
    Ok(slots)
}

/// What the threads of a driver have in common.
#[derive(Drop)]
pub(crate) struct Common<N: DriverNaming> {
    pub(crate) slots: Arc<Slots<N>>,
    pub(crate) desk: Arc<Mutex<Desk<N>>>,
    /// Whether the threads are to end.
    pub(crate) stop: Arc<AtomicBool>,
}

impl<N: DriverNaming> Common<N> {
    /// The same once more, for another thread.
    pub(crate) fn again(&self) -> Result<Common<N>, AllocError> {
        Ok(Common {
            slots: Arc::try_clone(&self.slots)?,
            desk: Arc::try_clone(&self.desk)?,
            stop: Arc::try_clone(&self.stop)?,
        })
    }
}

/// What counts the messages that logs take.
#[derive(Drop)]
pub(crate) struct Ledger<N: DriverNaming> {
    /// That no more are ever made than the slots had at first.
    pub(crate) total: Total<OfMessages<N>>,
    /// What of it no slot and no client has: what those clients counted that came back.
    pub(crate) counted: Amount<N>,
    /// The parts of clients that are not out, and the driver's own.
    pub(crate) clients: Share<OfClients<N>>,
}

impl<N: DriverNaming> Ledger<N> {
    /// A client comes back, with what it counted, and its part.
    pub(crate) fn take_back(&mut self, counted: Amount<N>, part: Share<OfClients<N>>)
        requires total { self.old.total.amount < 2 ^ 64 }
        ensures counted { self.new.counted ≡ record { parts = self.old.counted.parts + counted.parts; number = self.old.counted.number + counted.number } }
        ensures clients { (self.new.clients.parts ≡ self.old.clients.parts + part.parts) × (self.new.clients.parts ≤ N.client_parts) }
        ensures amount { self.new.clients.amount ≡ self.old.clients.amount + part.amount }
        ensures total { self.new.total ≡ self.old.total }
    {
        let Ledger {
            total,
            counted: all,
            clients,
        } = self;
        all.merge(counted, total);
        clients.merge(part);
    }
}

/// The slots of a driver, each for a publication with its amount, and what else its threads have in common.
fn make_common<N: DriverNaming>(
    alloc: Global,
    amount: &mut Amount<N>,
) -> Result<Common<N>, AllocError>
    requires { amount.old ≡ record { parts = 321; number = 256 * 2 ^ 55 } }
    ensures { OnOk result (amount.new ≡ record { parts = 65; number = 0 }) }
{
    let slots = Slots {
        publications: publication_slots(alloc, amount)?,
        images: image_slots(alloc)?,
        journal: Mutex::new(Journal::new(alloc)?),
    };
    Ok(Common {
        slots: shared(alloc, slots)?,
        desk: shared(alloc, Mutex::new(Desk::new()))?,
        stop: shared(alloc, AtomicBool::new(false))?,
    })
}

/// What stands below all that a driver does.
#[derive(Drop)]
pub(crate) struct Base<N: DriverNaming> {
    pub(crate) common: Common<N>,
    pub(crate) ledger: Ledger<N>,
}

/// The ledgers are opened, and each slot for a publication has its amount.
pub(crate) fn make_base<N: DriverNaming>(
    alloc: Global,
    blanks: Blanks,
) -> Result<Base<N>, AllocError>
    requires messages { (blanks.messages.name ≡ N.ledger) × (blanks.messages.parts ≡ N.parts) × (N.parts ≡ 321) }
    requires clients { (blanks.clients.name ≡ N.client_ledger) × (blanks.clients.parts ≡ N.client_parts) × (N.client_parts ≡ 65) }
    ensures counted { IfOk result (λ base. base.ledger.counted ≡ record { parts = 65; number = 0 }) }
    ensures clients { IfOk result (λ base. base.ledger.clients.parts ≡ 65) }
    ensures total { IfOk result (λ base. (base.ledger.total.amount ≡ 256 * 2 ^ 55) × (base.ledger.total.parts ≡ 321)) }
{
    let Blanks { messages, clients } = blanks;
    let (total, mut counted) = Amount::open(messages, PUBLICATIONS);
    let (_, clients) = clients.open::<OfClients<N>>();
    let common = make_common(alloc, &mut counted)?;
    let ledger = Ledger {
        total,
        counted,
        clients,
    };
    Ok(Base { common, ledger })
}
