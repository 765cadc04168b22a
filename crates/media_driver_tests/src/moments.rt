// Rules that hold for a time, in a driver of which nobody asks anything: its conductor alone takes and brings what they decide.
use crate::asking::{Outcome, offered, published, source_of, subscribed};
use crate::clients::{alone, attached};
use driver_core::Reply;
use media_driver::{
    Agent, AuditOf, Audited, Client, ClientReply, Clock, Dated, Driver, DriverNaming, PollFault,
};
use policy_core::Act;
use policy_text::Names;
use std::alloc::Global;
use std::sync::Wait;
use std::thread::{self, Threads};
use std::time::{self, Duration};

const IPC: &str = "aeron:ipc";

const STREAM: i32 = 10;

/// Half a second, in nanoseconds: so far ahead is the bound of a rule.
const AHEAD: u64 = 500_000_000;

/// How many milliseconds a wait lasts at most.
const WAIT: u32 = 20_000;

/// What a rule of the policy has that lets logs be read.
#[derive(Clone, Copy)]
enum Bound {
    From,
    Until,
}

impl Bound {
    fn word(self) -> &'static str {
        match self {
            Bound::From => "from",
            Bound::Until => "until",
        }
    }
}

/// Half a second from now on, or until then, what is published can be read. All else is allowed.
fn bounded<
    N: DriverNaming + Send + Sync + 'static,
    R: Threads + Wait + Copy + Drop + Send + Sync + 'static,
    C: Clock + Copy + Drop + Send + 'static,
>(alloc: Global, driver: &mut Driver<N, R, C>, bound: Bound) -> Result<u64, &'static str> {
    let at = driver.now().saturating_add(AHEAD);
    let word = bound.word();
    let text = format!(in alloc;
        "version = 2\ndefault = \"deny\"\n\n\
         [[rule]]\nname = \"all but images\"\nprincipal = \"*\"\nact = [\"publish\", \"offer\", \"subscribe\", \"receive\"]\nchannel = \"*\"\nallow = true\n\n\
         [[rule]]\nname = \"images for a time\"\nprincipal = \"*\"\nact = \"image\"\nchannel = \"*\"\n{word} = {at}\nallow = true\n"
    );
    let Ok(text) = text else {
        return Err("no memory");
    };
    match driver.reload(&Names::new(alloc), text.as_str()) {
        Ok(_) => Ok(at),
        Err(_) => Err("the policy is not put in force"),
    }
}

/// The next reply, which comes although the client does nothing but wait for it.
fn told<N: DriverNaming, C: Clock, R: Wait + time::Clock>(
    rt: &R,
    client: &mut Client<N, C>,
) -> Result<Reply, &'static str> {
    for _ in 0..WAIT {
        if let Some(mail) = client.next_mail() {
            return match mail.reply() {
                ClientReply::Of(reply) => Ok(reply),
                ClientReply::NoMemory { .. } => Err("there was no memory for a command"),
            };
        }
        thread::sleep(rt, Duration::from_millis(1));
    }
    Err("nothing is told")
}

/// A client offers one byte, and reads it.
fn one_message<N: DriverNaming, C: Clock, R: Wait>(
    rt: &R,
    client: &mut Client<N, C>,
    publication: u64,
    subscription: u64,
    source: u64,
) -> Outcome {
    if offered(rt, client, publication, &[7]).is_err() {
        return Err("the message is not taken");
    }
    let Ok(fragments) = client.poll(rt, subscription, source, 8) else {
        return Err("the poll is refused");
    };
    match fragments.iter().next() {
        Some(fragment) if fragment.payload == [7].as_slice() => Ok(()),
        _ => Err("the message is not read"),
    }
}

/// Whether an audit has what was decided on offers, and on one poll after them, and that each was allowed.
fn is_audited(audit: &AuditOf<Dated>) -> bool {
    let mut offers = 0u64;
    let mut polls = 0u64;
    let mut registry = 1;
    for dated in audit.items() {
        match dated.decision.act {
            Act::Offer if polls == 0 => offers = offers.saturating_add(1),
            Act::Receive => polls = polls.saturating_add(1),
            _ => return false,
        }
        if !dated.decision.verdict.allow || dated.stamp.registry < registry {
            return false;
        }
        registry = dated.stamp.registry;
    }
    offers > 0 && polls == 1 && audit.dropped() == 0
}

/// Whether the conductor's audit has that the client may publish and subscribe, that its subscription may have the image, and last that it
/// may not from a moment on.
fn is_conducted(audit: &Audited, until: u64) -> bool {
    let mut commands = 0u64;
    let mut came = 0u64;
    let mut went = 0u64;
    for dated in audit.last.as_slice() {
        match (dated.decision.act, dated.decision.verdict.allow) {
            (Act::Publish | Act::Subscribe, true) => commands = commands.saturating_add(1),
            (Act::Image, true) if went == 0 => came = came.saturating_add(1),
            (Act::Image, false) if dated.stamp.moment >= until => went = went.saturating_add(1),
            _ => return false,
        }
    }
    commands == 2 && came > 0 && went == 1 && audit.dropped == 0
}

/// The conductor's audit comes to have that. It notes an entry after the entry's replies.
fn conducted<
    N: DriverNaming + Send + Sync + 'static,
    R: Threads + Wait + time::Clock + Copy + Drop + Send + Sync + 'static,
    C: Clock + Copy + Drop + Send + 'static,
>(rt: &R, driver: &mut Driver<N, R, C>, until: u64) -> Outcome {
    for _ in 0..WAIT {
        match driver.audit(Agent::Conductor) {
            Ok(audit) if is_conducted(&audit, until) => return Ok(()),
            Ok(_) => thread::sleep(rt, Duration::from_millis(1)),
            Err(_) => return Err("there is no memory for an audit"),
        }
    }
    Err("the conductor's audit has something else than what was decided")
}

/// A client reads its own stream until the rule ends that lets it.
fn reads_until<
    N: DriverNaming + Send + Sync + 'static,
    R: Threads + Wait + time::Clock + Copy + Drop + Send + Sync + 'static,
    C: Clock + Copy + Drop + Send + 'static,
>(rt: R, alloc: Global, driver: &mut Driver<N, R, C>, client: &mut Client<N, C>) -> Outcome {
    let subscription = subscribed(&rt, client, IPC, STREAM)?;
    let publication = published(&rt, client, IPC, STREAM)?;
    let source = source_of(client, subscription)?;
    one_message(&rt, client, publication, subscription, source)?;
    let until = bounded(alloc, driver, Bound::Until)?;
    match told(&rt, client)? {
        Reply::UnavailableImage { source: gone, .. } if gone == source => {}
        _ => return Err("something else is told than that the log is gone"),
    }
    if driver.now() < until {
        return Err("the log is gone before the rule ends");
    }
    match client.poll(&rt, subscription, source, 8) {
        Err(PollFault::Gone) if is_audited(client.audit()) => {}
        Err(PollFault::Gone) => return Err("the audit has something else than what was decided"),
        _ => return Err("the log is read after the rule has ended"),
    }
    conducted(&rt, driver, until)
}

/// A client reads its own stream as soon as the rule begins that lets it.
fn reads_from<
    N: DriverNaming + Send + Sync + 'static,
    R: Threads + Wait + time::Clock + Copy + Drop + Send + Sync + 'static,
    C: Clock + Copy + Drop + Send + 'static,
>(rt: R, alloc: Global, driver: &mut Driver<N, R, C>, client: &mut Client<N, C>) -> Outcome {
    let from = bounded(alloc, driver, Bound::From)?;
    let subscription = subscribed(&rt, client, IPC, STREAM)?;
    let publication = published(&rt, client, IPC, STREAM)?;
    let Reply::AvailableImage { source, .. } = told(&rt, client)? else {
        return Err("something else is told than that the log is there");
    };
    if driver.now() < from {
        return Err("the log is there before the rule begins");
    }
    one_message(&rt, client, publication, subscription, source)
}

/// A rule ends, and the client is told so. It comes back.
pub(crate) fn rule_ends<
    N: DriverNaming + Send + Sync + 'static,
    R: Threads + Wait + time::Clock + Copy + Drop + Send + Sync + 'static,
    C: Clock + Copy + Drop + Send + 'static,
>(rt: R, alloc: Global, driver: &mut Driver<N, R, C>) -> Result<Vec<Client<N, C>>, &'static str> {
    let mut client = attached(driver, 1)?;
    reads_until(rt, alloc, driver, &mut client)?;
    alone(alloc, client)
}

/// A rule begins, and the client is told so. It comes back.
pub(crate) fn rule_begins<
    N: DriverNaming + Send + Sync + 'static,
    R: Threads + Wait + time::Clock + Copy + Drop + Send + Sync + 'static,
    C: Clock + Copy + Drop + Send + 'static,
>(rt: R, alloc: Global, driver: &mut Driver<N, R, C>) -> Result<Vec<Client<N, C>>, &'static str> {
    let mut client = attached(driver, 1)?;
    reads_from(rt, alloc, driver, &mut client)?;
    alone(alloc, client)
}
