//! A connection of a client in another process, on a thread of its own.

ghost use Rattle.published_registry.specs.Histories.{registry_of};
ghost use Rattle.std.specs.Prelude.{◌≡◌, true};

use crate::keeping::Kept;
use crate::station::OwnClient;
use driver_service::{Connection, Reason};
use media_driver::{DriverNaming, MachineClock};
use mio::Waker;
use program_parts::{Log, Machine};
use served_clients::{Parted, Served, is_ended, serve};
use service_doors::{Bells, DoorMemory, Watch};
use service_streams::{Ended, Greeting, dismiss};
use std::net::Shutdown;
use std::os::unix::net::UnixStream;
use std::sync::{Arc, Mutex, Wait};
use std::thread;
use std::time::{Clock, CpuClock, Duration};

/// How often a client tries to say that it goes, a millisecond apart.
const TRIES: u64 = 1_000;

/// How often a client that asked that the driver end looks whether it was ended, a millisecond apart, before it goes.
const LOOKS: u64 = 100;

/// A client that a connection does not need any more.
#[derive(Drop)]
pub(crate) struct Leaving<N: DriverNaming, R: Clock + CpuClock + Wait + Copy + Drop> {
    pub(crate) number: u64,
    pub(crate) client: OwnClient<N, R>,
    /// Whether the driver was ended.
    pub(crate) ended: bool,
    pub ghost own: { client.number ≡ number },
    /// It is the registry that says so.
    pub ghost seen: { ended ≡ true → (registry_of client.known).stopped ≡ true },
}

/// The clients that connections gave back, what wakes the driver's own thread, and where is said that they went.
#[derive(Drop)]
pub(crate) struct Tray<N: DriverNaming, R: Clock + CpuClock + Wait + Copy + Drop> {
    pub(crate) clients: Mutex<Vec<Leaving<N, R>>>,
    pub(crate) waker: Waker,
    pub(crate) log: Arc<Log>,
}

/// The client of a connection.
pub(crate) type OwnServed<N, R> = Served<N, MachineClock<R>, R, Kept<R>>;

/// A connection before it has its thread. Its type asks less of `R` than [`Machine`] does: no closure is proved that takes a
/// value whose type asks for `'static`.
#[derive(Drop)]
pub(crate) struct Entered<N: DriverNaming, R: Clock + CpuClock + Wait + Copy + Drop> {
    pub(crate) rt: R,
    pub(crate) stream: UnixStream,
    pub(crate) served: OwnServed<N, R>,
    pub(crate) greeting: Greeting,
    pub(crate) bells: Arc<Bells>,
    pub(crate) memory: DoorMemory,
    pub(crate) tray: Arc<Tray<N, R>>,
    /// It is told the number of its own client.
    pub ghost own: { served.client.number ≡ greeting.client },
}

/// Answers a connection until it ends.
fn answer<N: DriverNaming, R: Machine>(
    rt: R,
    bells: Arc<Bells>,
    memory: DoorMemory,
    stream: &mut UnixStream,
    connection: &mut Connection<OwnServed<N, R>>,
    greeting: Greeting,
) -> Ended
    ensures { connection.new.seat.client.number ≡ connection.old.seat.client.number }
{
    let Some(mut watch) = Watch::new(rt, bells, memory, stream, greeting.client) else {
        dismiss(rt.alloc(), stream, Reason::NoMemory);
        return Ended::NoMemory;
    };
    let ended = serve(&rt, rt.alloc(), stream, &mut watch, connection, greeting);
    watch.end();
    ended
}

/// The client says that it goes. Whether the driver heard that.
fn is_closed<N: DriverNaming, R: Machine>(rt: &R, client: &mut OwnClient<N, R>) -> bool
    ensures known { client.new.known ≡ client.old.known }
    ensures own { client.new.number ≡ client.old.number }
{
    match client.close(rt) {
        Ok(_) => true,
        Err(_) => false,
    }
}

/// The client says that it goes: it has its seat until the driver heard that.
fn close<N: DriverNaming, R: Machine>(rt: &R, client: &mut OwnClient<N, R>)
    ensures known { client.new.known ≡ client.old.known }
    ensures own { client.new.number ≡ client.old.number }
{
    for _ in 0..TRIES {
        if is_closed(rt, client) {
            return;
        }
        thread::sleep(rt, Duration::from_millis(1));
    }
}

/// Whether the driver was ended by what a client asked for before it went, of which it did not read the reply.
fn ends_after<N: DriverNaming, R: Machine>(rt: &R, client: &mut OwnClient<N, R>) -> bool
    ensures ended { result ≡ true → (registry_of client.new.known).stopped ≡ true }
    ensures own { client.new.number ≡ client.old.number }
{
    for _ in 0..LOOKS {
        if is_ended(client) {
            return true;
        }
        thread::sleep(rt, Duration::from_millis(1));
    }
    false
}

/// Whether the driver was ended: before the client went, or by what it asked for.
fn is_over<N: DriverNaming, R: Machine>(
    rt: &R,
    client: &mut OwnClient<N, R>,
    ended: bool,
    terminates: bool,
) -> bool
    requires { ended ≡ true → (registry_of client.old.known).stopped ≡ true }
    ensures ended { result ≡ true → (registry_of client.new.known).stopped ≡ true }
    ensures own { client.new.number ≡ client.old.number }
{
    if !ended && terminates {
        return ends_after(rt, client);
    }
    ended
}

/// A client goes, and what it shares with others.
fn leave<N: DriverNaming, R: Machine>(rt: &R, served: OwnServed<N, R>, number: u64) -> Leaving<N, R>
    requires { served.client.number ≡ number }
{
    let Parted {
        mut client,
        keeper,
        ended,
        terminates,
    } = served.into_parts();
    close(rt, &mut client);
    keeper.share.leave(number);
    let ended = is_over(rt, &mut client, ended, terminates);
    Leaving {
        number,
        client,
        ended,
    }
}

impl<N: DriverNaming, R: Machine> Tray<N, R> {
    /// A client is given back.
    fn give(&self, rt: &R, leaving: Leaving<N, R>) {
        let mut clients = self.clients.lock(rt);
        let _ = clients.push(leaving);
    }

    /// The next client that was given back.
    pub(crate) fn next(&self, rt: &R) -> Option<Leaving<N, R>> {
        let mut clients = self.clients.lock(rt);
        clients.pop()
    }
}

/// Answers a connection until it ends, and gives its client back.
pub(crate) fn run_connection<N: DriverNaming, R: Machine>(entered: Entered<N, R>) {
    let Entered {
        rt,
        mut stream,
        served,
        greeting,
        bells,
        memory,
        tray,
    } = entered;
    let number = greeting.client;
    let principal = greeting.principal;
    let mut connection = Connection::new(served);
    let ended = answer(rt, bells, memory, &mut stream, &mut connection, greeting);
    let _ = stream.shutdown(Shutdown::Both);
    let left = format!(in rt.alloc(); "client {number} left: {ended:?}");
    tray.log.say_of(&rt, principal, left);
    let leaving = leave(&rt, connection.into_seat(), number);
    tray.give(&rt, leaving);
    let _ = tray.waker.wake();
}
