//! The connections that are open, and what the clients of each principal have.

ghost use Rattle.service_doors.specs.Guests.{clients_of};
ghost use Rattle.std.specs.Prelude.{◌≡◌, IfOk, IfSome, length};

use crate::bells::Bells;
use crate::doors::Door;
use crate::fault::DoorFault;
use crate::memory::LongBytes;
use crate::serving::{Begun, Serving};
use crate::share::{Room, Share};
use program_parts::Machine;
use service_bounds::{Bounds, Holdings};
use std::alloc::{AllocError, Global};
use std::net::Shutdown;
use std::os::unix::net::UnixStream;
use std::sync::{Arc, Mutex, Wait};
use std::thread::{JoinHandle, Threads};

/// How many clients a driver has at once, at most.
pub(crate) const CLIENTS: usize = 64;

/// A connection that is open.
#[derive(Drop)]
pub(crate) struct Guest {
    pub(crate) number: u64,
    pub(crate) principal: u32,
    /// When it came, in nanoseconds of the machine's clock.
    pub(crate) since: u64,
    stream: UnixStream,
    thread: JoinHandle<()>,
}

/// The connections that are open.
#[derive(Drop)]
pub(crate) struct Guests {
    pub(crate) rows: Vec<Guest>,
}

impl Guests {
    /// None, and room for all that a driver has.
    pub(crate) fn new(alloc: Global) -> Result<Guests, AllocError> {
        Ok(Guests {
            rows: Vec::with_capacity(alloc, CLIENTS)?,
        })
    }

    /// How many clients a principal has.
    pub(crate) fn count_of(&self, principal: u32) -> u64
        ensures { result ≡ length (clients_of principal self.now.rows.items) }
    {
        self.rows
            .iter()
            .filter(|guest| guest.principal == principal)
            .count() as u64
    }

    /// One more is there.
    pub(crate) fn add(&mut self, begun: Begun, principal: u32, since: u64, stream: UnixStream) {
        let Begun { number, thread } = begun;
        let _ = self.rows.push(Guest {
            number,
            principal,
            since,
            stream,
            thread,
        });
    }

    /// That of this client ended.
    pub(crate) fn forget(&mut self, number: u64) {
        self.rows.retain(|guest| guest.number != number);
    }

    /// The streams of all are shut that way.
    pub(crate) fn shut(&self, how: Shutdown) {
        for guest in self.rows.iter() {
            let _ = guest.stream.shutdown(how);
        }
    }

    /// Waits for all of their threads.
    pub(crate) fn join<R: Threads>(self, rt: &R) {
        for guest in self.rows {
            guest.thread.join(rt);
        }
    }
}

/// A principal for whom there is a door.
#[derive(Drop)]
struct Holder {
    name: String,
    room: Arc<Room>,
}

/// What the clients of each principal have.
#[derive(Drop)]
pub(crate) struct Holders {
    rows: Vec<Holder>,
}

/// What the clients of a principal have, who may have so much and have nothing.
fn room_of(alloc: Global, principal: u32, bounds: Bounds) -> Result<Arc<Room>, DoorFault>
    ensures { IfOk result (λ room. room.value.principal ≡ principal) }
{
    let holdings = Mutex::new(Holdings::new(alloc, bounds));
    match Arc::new(
        alloc,
        Room {
            principal,
            holdings,
            long: Mutex::new(LongBytes::new()),
        },
    ) {
        Ok(room) => Ok(room),
        Err(_) => Err(DoorFault::NoMemory),
    }
}

impl Holders {
    /// Those for whom there are doors, who have nothing.
    pub(crate) fn new(alloc: Global, doors: &[Door], bounds: Bounds) -> Result<Holders, DoorFault> {
        let mut holders = Holders {
            rows: Vec::new(alloc),
        };
        for door in doors {
            if let Some(principal) = door.principal {
                holders.add(alloc, principal, door.name.as_str(), bounds)?;
            }
        }
        Ok(holders)
    }

    fn of(&self, principal: u32) -> Option<&Holder>
        ensures { IfSome result (λ holder. holder.now.room.value.principal ≡ principal) }
    {
        self.rows
            .iter()
            .find(|holder| holder.room.principal == principal)
    }

    /// One more is there, unless they were before.
    fn add(
        &mut self,
        alloc: Global,
        principal: u32,
        name: &str,
        bounds: Bounds,
    ) -> Result<(), DoorFault> {
        if self.of(principal).is_some() {
            return Ok(());
        }
        let name = String::from_str(alloc, name)?;
        let room = room_of(alloc, principal, bounds)?;
        self.rows.push(Holder { name, room })?;
        Ok(())
    }

    /// How many principals there are.
    pub(crate) fn len(&self) -> u64 {
        self.rows.len() as u64
    }

    /// The name of a principal.
    pub(crate) fn name_of(&self, principal: u32) -> &str {
        match self.of(principal) {
            Some(holder) => holder.name.as_str(),
            None => "nobody",
        }
    }

    /// What a client of that principal shares with others.
    pub(crate) fn share_of<R: Machine>(
        &self,
        rt: R,
        principal: u32,
        serving: &Serving,
        bells: &Arc<Bells>,
    ) -> Option<Share<R>>
        ensures principal { IfSome result (λ share. share.room.value.principal ≡ principal) }
        ensures liveness { IfSome result (λ share. share.spending.liveness ≡ serving.now.liveness) }
    {
        let holder = self.of(principal)?;
        let room = Arc::try_clone(&holder.room).ok()?;
        let bells = Arc::try_clone(bells).ok()?;
        Some(Share::new(rt, serving.usual, room, bells, serving.liveness))
    }

    /// How many publications, subscriptions and counters a client has.
    pub(crate) fn counts_of<R: Wait>(
        &self,
        rt: &R,
        principal: u32,
        client: u64,
    ) -> (u64, u64, u64) {
        match self.of(principal) {
            Some(holder) => {
                let holdings = holder.room.holdings.lock(rt);
                holdings.counts_of(client)
            }
            None => (0, 0, 0),
        }
    }
}
