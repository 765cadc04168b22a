// What the agents of a driver have in common: the slots of its logs, where its owner asks, and a gate that is open.
ghost use Rattle.std.specs.Prelude.{◌≡◌, ◌*◌, ◌^◌};

use log_slots::{Amount, LogSlot, Naming, ROOM, Slot};
use media_agents::{Agent, Desk, DriverNaming, Gate, Journal, Slots, Turn};
use std::alloc::{AllocError, Global};
use std::sync::ledger::Blank;
use std::sync::{Arc, Mutex};

// How many logs of publications there are at most, and how many images.
const SLOTS: u8 = 3;

// A gate that holds nobody up.
#[derive(Drop)]
pub struct Open;

impl Gate for Open {
    fn pass(&self, _agent: Agent, _turn: Turn, _sockets: &[i32]) {}
}

// A value that several agents have.
pub fn shared<T: Drop>(alloc: Global, value: T) -> Result<Arc<T>, AllocError> {
    match Arc::new(alloc, value) {
        Ok(shared) => Ok(shared),
        Err(_) => Err(AllocError),
    }
}

// The slots for the logs of publications, each with its amount of the ledger.
fn publication_slots<N: Naming>(
    alloc: Global,
    amount: &mut Amount<N>,
) -> Result<Vec<Mutex<Slot<N>>>, AllocError>
    requires { amount.old ≡ record { parts = 4; number = 3 * 2 ^ 55 } }
{
    let mut slots = Vec::with_capacity(alloc, SLOTS as usize)?;
    for _made in 0..SLOTS {
        slots.push(Mutex::new(Slot::new(amount.split(ROOM))))?;
    }
    Ok(slots)
}

// The slots for the logs of images.
fn image_slots<N: Naming>(alloc: Global) -> Result<Vec<Mutex<LogSlot<N>>>, AllocError> {
    let mut slots = Vec::with_capacity(alloc, SLOTS as usize)?;
    for _made in 0..SLOTS {
        slots.push(Mutex::new(LogSlot::new()))?;
    }
    Ok(slots)
}

// All slots, of which each is empty.
fn make_slots<N: Naming>(alloc: Global, parts: Blank) -> Result<Slots<N>, AllocError>
    requires names { (parts.name ≡ N.ledger) × (parts.parts ≡ N.parts) }
    requires four { parts.parts ≡ 4 }
{
    let (_total, mut amount) = Amount::open(parts, SLOTS as u32);
    Ok(Slots {
        publications: publication_slots(alloc, &mut amount)?,
        images: image_slots(alloc)?,
        journal: Mutex::new(Journal::new(alloc)?),
    })
}

// What the agents have in common.
#[derive(Drop)]
pub struct Common<N: DriverNaming> {
    pub slots: Arc<Slots<N>>,
    pub desk: Arc<Mutex<Desk<N>>>,
    pub gate: Arc<Open>,
}

impl<N: DriverNaming> Common<N> {
    // Slots for three logs of each kind.
    pub fn new(alloc: Global, parts: Blank) -> Result<Common<N>, AllocError>
        requires names { (parts.name ≡ N.ledger) × (parts.parts ≡ N.parts) }
        requires four { parts.parts ≡ 4 }
    {
        let slots = make_slots(alloc, parts)?;
        Ok(Common {
            slots: shared(alloc, slots)?,
            desk: shared(alloc, Mutex::new(Desk::new()))?,
            gate: shared(alloc, Open)?,
        })
    }

    // The slots, for one more agent.
    pub fn slots(&self) -> Result<Arc<Slots<N>>, AllocError> {
        Arc::try_clone(&self.slots)
    }

    // The gate, for one more agent.
    pub fn gate(&self) -> Result<Arc<Open>, AllocError> {
        Arc::try_clone(&self.gate)
    }
}
