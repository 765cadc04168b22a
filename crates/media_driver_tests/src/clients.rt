// Clients of a driver, from their attach until they come back.
use media_driver::{Client, Clock, Driver, DriverNaming};
use std::alloc::Global;
use std::sync::Wait;
use std::thread::Threads;

/// A client that attaches for this principal.
pub(crate) fn attached<
    N: DriverNaming + Send + Sync + 'static,
    R: Threads + Wait + Copy + Drop + Send + Sync + 'static,
    C: Clock + Copy + Drop + Send + 'static,
>(driver: &mut Driver<N, R, C>, principal: u32) -> Result<Client<N, C>, &'static str> {
    match driver.client(principal) {
        Ok(client) => Ok(client),
        Err(_) => Err("no client attaches"),
    }
}

/// These clients and one more.
pub(crate) fn with<N: DriverNaming, C: Clock + Drop>(
    clients: Vec<Client<N, C>>,
    client: Client<N, C>,
) -> Result<Vec<Client<N, C>>, &'static str> {
    let mut clients = clients;
    match clients.push(client) {
        Ok(()) => Ok(clients),
        Err(_) => Err("no memory"),
    }
}

/// A client alone.
pub(crate) fn alone<N: DriverNaming, C: Clock + Drop>(
    alloc: Global,
    client: Client<N, C>,
) -> Result<Vec<Client<N, C>>, &'static str> {
    with(Vec::new(alloc), client)
}

/// Two clients.
pub(crate) fn both<N: DriverNaming, C: Clock + Drop>(
    alloc: Global,
    one: Client<N, C>,
    other: Client<N, C>,
) -> Result<Vec<Client<N, C>>, &'static str> {
    with(alone(alloc, one)?, other)
}
