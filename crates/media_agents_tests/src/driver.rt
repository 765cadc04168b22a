// A driver whose agents are turned by hand.
ghost use Rattle.driver_core.specs.Soundness.{IsSound};
ghost use Rattle.published_registry.specs.Histories.{registry_of};
ghost use Rattle.std.specs.Prelude.{◌≡◌, IfOk};

use crate::common::{Common, Open};
use crate::hand::{Ends, Hand};
use crate::parts::{Parts, Pieces};
use command_queue::{Sender, Taker};
use driver_core::Event;
use log_arena::Arena;
use log_slots::Region;
use media_agents::{
    Acknowledgements, Bells, CommandSender, Conductor, DeskAnswers, DriverNaming, EventSender,
    Ring, Rings, Slots, Steps, Works, share,
};
use published_registry::Publisher;
use rows::Rows;
use rtrb::RingBuffer;
use std::alloc::{AllocError, Global};
use std::sync::{Arc, Wait};

// One ring, whose replies nobody takes.
fn rings<N: DriverNaming>(alloc: Global, share: Acknowledgements) -> Result<Rings<N>, AllocError> {
    let (producer, _consumer) = RingBuffer::new(alloc, 256)?;
    let mut rings = Vec::new(alloc);
    rings.push(Ring::new(producer, share))?;
    Ok(Rings::new(rings))
}

// The ends of a queue: that of the client, within its share, two others, and the conductor's.
#[derive(Drop)]
struct Queue {
    client: CommandSender,
    share: Acknowledgements,
    senders: Vec<Sender<Event>>,
    taker: Taker<Event>,
}

impl Queue {
    fn new(alloc: Global) -> Result<Queue, AllocError> {
        let (mut senders, taker) = command_queue::make(alloc, 3)?;
        let sender = senders.pop().ok_or(AllocError)?;
        let bells = Arc::new(alloc, Bells::new()).map_err(|_| AllocError)?;
        let (client, share) = share(alloc, EventSender::new(sender, bells))?;
        Ok(Queue {
            client,
            share,
            senders,
            taker,
        })
    }
}

// What the conductor alone works with.
#[derive(Drop)]
struct Store<N: DriverNaming> {
    region: Region<N>,
    rings: Rings<N>,
    room: Rows<u64, 512>,
}

impl<N: DriverNaming> Store<N> {
    fn new(alloc: Global, arena: Arena, share: Acknowledgements) -> Result<Store<N>, AllocError>
        requires { arena.home ≡ N.home }
    {
        Ok(Store {
            region: Region::new(arena),
            rings: rings(alloc, share)?,
            room: Rows::new(alloc)?,
        })
    }
}

// All that a driver takes memory for as it starts.
#[derive(Drop)]
struct Outfit<N: DriverNaming> {
    store: Store<N>,
    common: Common<N>,
    notes: Steps<N>,
    taker: Taker<Event>,
    hand: Hand<N>,
    client: CommandSender,
    slots: Arc<Slots<N>>,
}

impl<N: DriverNaming> Outfit<N> {
    fn new(alloc: Global, pieces: Pieces) -> Result<Outfit<N>, AllocError>
        requires home { pieces.arena.home ≡ N.home }
        requires names { (pieces.messages.name ≡ N.ledger) × (pieces.messages.parts ≡ N.parts) }
        requires four { pieces.messages.parts ≡ 4 }
    {
        let Pieces {
            arena,
            passes,
            messages,
            local,
        } = pieces;
        let Queue {
            client,
            share,
            senders,
            taker,
        } = Queue::new(alloc)?;
        let store = Store::new(alloc, arena, share)?;
        let common = Common::new(alloc, messages)?;
        let slots = common.slots()?;
        let notes = Steps::new(common.slots()?);
        let mut ends = Ends { passes, senders };
        let hand = Hand::new(alloc, &common, local, &mut ends)?;
        Ok(Outfit {
            store,
            common,
            notes,
            taker,
            hand,
            client,
            slots,
        })
    }

    // The driver that publishes by this publisher.
    fn driver(self, alloc: Global, publisher: Publisher) -> Driver<N>
        requires book { publisher.book ≡ N.book }
        requires sound { IsSound (registry_of publisher) }
    {
        let Outfit {
            store,
            common,
            notes,
            taker,
            hand,
            client,
            slots: kept,
        } = self;
        let Store {
            region,
            rings,
            room,
        } = store;
        let Common { slots, desk, gate } = common;
        let desk = DeskAnswers::new(desk);
        let logs = Steps::new(slots);
        let works = Works::new(publisher, rings, desk, region, logs, notes, room, alloc);
        Driver {
            conductor: Conductor::new(taker, works, gate),
            hand,
            client,
            slots: kept,
        }
    }
}

// It can't be let go: its conductor ends its registry.
pub struct Driver<N: DriverNaming> {
    pub conductor: Conductor<N, Steps<N>, DeskAnswers<N>, Steps<N>, Open>,
    pub hand: Hand<N>,
    // The first client's way into the queue.
    pub client: CommandSender,
    pub slots: Arc<Slots<N>>,
}

impl<N: DriverNaming> Driver<N> {
    // A driver of these parts, which `N` names; `None` where there is no memory.
    pub fn start<R: Wait>(rt: &R, alloc: Global, parts: Parts) -> Option<Driver<N>>
        requires book { parts.publisher.book ≡ N.book }
        requires sound { IsSound (registry_of parts.publisher) }
        requires home { parts.pieces.arena.home ≡ N.home }
        requires names { (parts.pieces.messages.name ≡ N.ledger) × (parts.pieces.messages.parts ≡ N.parts) }
        requires four { parts.pieces.messages.parts ≡ 4 }
    {
        let Parts { publisher, pieces } = parts;
        match Outfit::new(alloc, pieces) {
            Ok(outfit) => Some(outfit.driver(alloc, publisher)),
            Err(_) => {
                drop(publisher.end(rt));
                None
            }
        }
    }

    // The conductor has a turn: how many events were refused memory.
    pub fn conducts<R: Wait>(&mut self, rt: &R, now: u64) -> u32 {
        self.conductor.turn(rt, now)
    }

    // Its conductor ends, and with it all logs.
    pub fn end<R: Wait>(self, rt: &R) {
        let Driver {
            conductor,
            hand: _,
            client: _,
            slots: _,
        } = self;
        drop(conductor.end(rt));
    }
}
