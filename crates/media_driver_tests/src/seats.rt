// As many clients as may be out.
use crate::asking::{Outcome, next_reply};
use crate::clients::attached;
use driver_core::Reply;
use media_driver::{AttachFault, Client, Clock, Driver, DriverNaming};
use std::alloc::Global;
use std::sync::Wait;
use std::thread::Threads;

/// How many clients may be out at once.
const CLIENTS: u32 = 64;

/// The client goes, and knows it.
pub(crate) fn closes<N: DriverNaming, C: Clock, R: Wait>(
    rt: &R,
    client: &mut Client<N, C>,
) -> Outcome {
    let Ok(asked) = client.close(rt) else {
        return Err("a command does not reach the driver");
    };
    match next_reply(client)? {
        Reply::OperationSuccess { correlation } if correlation == asked => Ok(()),
        _ => Err("the client does not go"),
    }
}

/// Whether no more client attaches.
fn is_full<
    N: DriverNaming + Send + Sync + 'static,
    R: Threads + Wait + Copy + Drop + Send + Sync + 'static,
    C: Clock + Copy + Drop + Send + 'static,
>(driver: &mut Driver<N, R, C>) -> Outcome {
    match driver.client(1) {
        Err(AttachFault::Full) => Ok(()),
        _ => Err("one client too many attaches"),
    }
}

/// One of the clients goes and comes back, and another one has its place.
fn another_one<
    N: DriverNaming + Send + Sync + 'static,
    R: Threads + Wait + Copy + Drop + Send + Sync + 'static,
    C: Clock + Copy + Drop + Send + 'static,
>(rt: R, driver: &mut Driver<N, R, C>, client: Client<N, C>) -> Result<Client<N, C>, &'static str> {
    let mut client = client;
    let number = client.number();
    let closed = closes(&rt, &mut client);
    driver.take_back(client);
    closed?;
    let next = attached(driver, 1)?;
    if next.number() == number {
        return Err("two clients have one number");
    }
    Ok(next)
}

/// A place that a client had is another's, once that client has gone. All clients but one that is let go come back.
pub(crate) fn seats<
    N: DriverNaming + Send + Sync + 'static,
    R: Threads + Wait + Copy + Drop + Send + Sync + 'static,
    C: Clock + Copy + Drop + Send + 'static,
>(rt: R, alloc: Global, driver: &mut Driver<N, R, C>) -> Result<Vec<Client<N, C>>, &'static str> {
    let Ok(mut clients) = Vec::with_capacity(alloc, CLIENTS as usize) else {
        return Err("no memory");
    };
    for _ in 0..CLIENTS {
        let client = attached(driver, 1)?;
        if clients.push(client).is_err() {
            return Err("no memory");
        }
    }
    is_full(driver)?;
    let Some(last) = clients.pop() else {
        return Err("no client attached");
    };
    let next = another_one(rt, driver, last)?;
    if clients.push(next).is_err() {
        return Err("no memory");
    }
    is_full(driver)?;
    Ok(clients)
}
