//! What the two clients do.

use driver_core::Reply;
use media_driver::{Client, ClientReply, Clock, Driver, DriverNaming, PollFault};
use policy_core::Policy;
use policy_text::Names;
use std::alloc::Global;
use std::sync::Wait;
use std::thread;
use std::thread::Threads;

/// The first policy: p1 publishes, and p2 reads.
pub(crate) const OPEN: &str = "
version = 1
default = \"deny\"
[[rule]]
name = \"the gateway publishes prices\"
principal = \"p1\"
act = [\"publish\", \"offer\"]
channel = \"aeron:ipc\"
stream = [1001, 1001]
allow = true
[[rule]]
name = \"the desk reads them\"
principal = \"p2\"
act = [\"subscribe\", \"image\", \"receive\"]
channel = \"aeron:ipc\"
stream = [1001, 1001]
allow = true
";

/// The second one: nobody receives.
const SHUT: &str = "
version = 1
default = \"allow\"
[[rule]]
name = \"the market is closed\"
principal = \"*\"
act = \"receive\"
channel = \"*\"
allow = false
";

/// How often a reply or a message is looked for.
const TRIES: u32 = 10_000_000;

/// The names of principals: `nobody` and `p1` to `p63`.
pub(crate) fn names(alloc: Global) -> Result<Names, &'static str> {
    policy_query::principals(alloc).map_err(|_| "no memory")
}

/// The policy that the text is.
pub(crate) fn policy(alloc: Global, names: &Names, text: &str) -> Result<Policy, &'static str> {
    policy_text::read(alloc, text, names).map_err(|_| "no policy")
}

/// A client attaches that acts for this principal, and joins the others.
fn attach<
    N: DriverNaming + Send + Sync + 'static,
    R: Threads + Wait + Copy + Drop + Send + Sync + 'static,
    C: Clock + Copy + Drop + Send + 'static,
>(
    driver: &mut Driver<N, R, C>,
    principal: u32,
    clients: &mut Vec<Client<N, C>>,
) -> Result<(), &'static str> {
    match driver.client(principal) {
        Ok(client) => match clients.push(client) {
            Ok(()) => Ok(()),
            Err(_) => Err("no memory"),
        },
        Err(_) => Err("no client"),
    }
}

/// The client asks to read the stream.
fn subscribe<N: DriverNaming, C: Clock, R: Wait>(
    rt: &R,
    client: &mut Client<N, C>,
) -> Result<(), &'static str> {
    match client.add_subscription(rt, "aeron:ipc", 1001) {
        Ok(_) => Ok(()),
        Err(_) => Err("not asked"),
    }
}

/// The client asks to publish it.
fn publish<N: DriverNaming, C: Clock, R: Wait>(
    rt: &R,
    client: &mut Client<N, C>,
) -> Result<(), &'static str> {
    match client.add_publication(rt, "aeron:ipc", 1001) {
        Ok(_) => Ok(()),
        Err(_) => Err("not asked"),
    }
}

/// The client offers a message.
fn offer<N: DriverNaming, C: Clock, R: Wait>(
    rt: &R,
    client: &mut Client<N, C>,
    publication: u64,
    message: &[u8],
) -> Result<(), &'static str> {
    match client.offer(rt, publication, message) {
        Ok(_) => Ok(()),
        Err(_) => Err("not taken"),
    }
}

/// The text is put in force, and the client goes by it from then on.
fn reload<
    N: DriverNaming + Send + Sync + 'static,
    R: Threads + Wait + Copy + Drop + Send + Sync + 'static,
    C: Clock + Copy + Drop + Send + 'static,
>(
    driver: &mut Driver<N, R, C>,
    client: &mut Client<N, C>,
    names: &Names,
    text: &str,
) -> Result<(), &'static str> {
    match driver.reload(names, text) {
        Ok(receipt) => {
            client.learn(&receipt);
            Ok(())
        }
        Err(_) => Err("no reload"),
    }
}

/// The registration that the next reply to the client gives.
fn registration<N: DriverNaming, C: Clock>(client: &mut Client<N, C>) -> Result<u64, &'static str> {
    for _ in 0..TRIES {
        if let Some(mail) = client.next_mail() {
            return match mail.reply() {
                ClientReply::Of(
                    Reply::SubscriptionReady { registration, .. }
                    | Reply::PublicationReady { registration, .. },
                ) => Ok(registration),
                _ => Err("refused"),
            };
        }
        thread::yield_now();
    }
    Err("no reply")
}

/// What the client's next poll answers: how many bytes came, or the verdict that denies it.
fn polled<N: DriverNaming, C: Clock, R: Wait + Print>(
    rt: &R,
    client: &mut Client<N, C>,
    subscription: u64,
    source: u64,
) -> Result<(), &'static str> {
    match client.poll(rt, subscription, source, 10) {
        Ok(fragments) => {
            for fragment in fragments.iter() {
                let Ok(text) = str::from_utf8(fragment.payload) else {
                    return Err("no text");
                };
                println!(rt; "the desk reads: {text}").map_err(|_| "no output")?;
            }
            Ok(())
        }
        Err(PollFault::Denied(verdict)) => println!(rt; "the desk is {verdict}").map_err(
            |_| "no output",
        ),
        Err(_) => Err("no poll"),
    }
}

/// The gateway publishes a price, and the desk reads it. The driver's next policy denies it the same.
fn talk<
    N: DriverNaming + Send + Sync + 'static,
    R: Threads + Wait + Print + Copy + Drop + Send + Sync + 'static,
    C: Clock + Copy + Drop + Send + 'static,
>(
    rt: &R,
    names: &Names,
    driver: &mut Driver<N, R, C>,
    gateway: &mut Client<N, C>,
    desk: &mut Client<N, C>,
) -> Result<(), &'static str> {
    subscribe(rt, desk)?;
    let subscription = registration(desk)?;
    publish(rt, gateway)?;
    let publication = registration(gateway)?;
    offer(rt, gateway, publication, b"bid 99")?;
    polled(rt, desk, subscription, publication)?;

    reload(driver, desk, names, SHUT)?;
    polled(rt, desk, subscription, publication)
}

/// Two owners share the driver, each by a client. Both stand in the list, whatever comes of it.
pub(crate) fn share<
    N: DriverNaming + Send + Sync + 'static,
    R: Threads + Wait + Print + Copy + Drop + Send + Sync + 'static,
    C: Clock + Copy + Drop + Send + 'static,
>(
    rt: &R,
    names: &Names,
    driver: &mut Driver<N, R, C>,
    clients: &mut Vec<Client<N, C>>,
) -> Result<(), &'static str> {
    attach(driver, 1, clients)?;
    attach(driver, 2, clients)?;
    match clients.as_mut_slice() {
        [gateway, desk] => talk(rt, names, driver, gateway, desk),
        _ => Err("no client"),
    }
}
