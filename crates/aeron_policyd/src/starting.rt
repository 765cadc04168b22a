//! The subcommands that start a driver: what their words say is put together, and done.

ghost use Rattle.driver_core.specs.Soundness.{AreSettings};
ghost use Rattle.std.specs.Prelude.{IfOk};

use crate::book::Book;
use crate::clashing::clash;
use crate::denials::Denials;
use crate::fault::Fault;
use crate::files::{SharedFiles, bytes_of, regular_bytes_of};
use crate::hosting::Patience;
use crate::named::Named;
use crate::one_client::{Task, Trial, Work, with_client};
use crate::options::{
    NO_PUBLISHER, address_in, channel_of, chooses, control_of, elicitation_of, owned,
    publisher_address, reaching, refuse, settings_of,
};
use crate::publishing::{Other, Publishing};
use crate::replies::say;
use crate::rereading::{Shelf, Sources};
use crate::saying::{Saying, give_up};
use crate::serving::{Work as Serve, serve_clients};
use crate::station::Chores;
use crate::strangers::{self, Bound, GREATEST, bound_by, window_on};
use crate::subscribing::Subscribing;
use crate::usual::{
    asking_settings, lingering_settings, publishing_settings, repeating_settings,
    reporting_settings, subscribing_settings,
};
use crate::vetting::keep;
use channel_uri::Address;
use command_line::{Doors, Join, Order, Reading, Start, Talk};
use driver_core::{Peer, Settings};
use piped_messages::Cut;
use policy_core::Policy;
use policy_text::Names;
use program_parts::{Disk, Log, Machine, SECOND};
use service_doors::{AskedBounds, Plan, Serving, Usual, mode_in, place_in};
use service_records::Request;
use service_remote::{Offering, Wanted, Watched, print_counters, print_order, watch_decisions};
use std::net::{Ipv4Addr, SocketAddrV4, UdpSocket};
use std::sync::Arc;
use wire_causes::Side;

/// So many seconds, in nanoseconds.
fn seconds(count: u64) -> u64 {
    count.saturating_mul(SECOND)
}

/// A socket can be opened at an address. It is closed again.
fn can_open<R: Machine>(rt: &R, address: Address) -> Result<(), Fault> {
    let at = SocketAddrV4::new(Ipv4Addr::from_octets(address.octets), address.port);
    match UdpSocket::bind(rt, at) {
        Ok(_) => Ok(()),
        Err(_) => Err(Fault::CannotOpen(address)),
    }
}

/// A number of 32 bits that is another one at each start: by the clock.
fn drawn<R: Machine>(rt: &R) -> i32 {
    match rt.since_1970() {
        Ok(since) => {
            let nanoseconds = since.as_nanos() % (1 << 62);
            let mixed = (nanoseconds >> 10) % (1 << 32);
            (mixed as u32).cast_signed()
        }
        Err(_) => 1,
    }
}

/// The settings that words choose, where a driver recovers sooner from losses than the rules' own defaults have it.
fn recovering<R: Machine>(rt: &R, words: &[&str]) -> Result<Settings, Fault>
    ensures { IfOk result (λ settings. AreSettings settings) }
{
    let settings = settings_of(rt, words)?;
    let settings = asking_settings(chooses(words, "nak-delay"), settings);
    let settings = repeating_settings(chooses(words, "nak-repeat"), settings);
    Ok(lingering_settings(chooses(words, "resend-linger"), settings))
}

/// The settings of a driver that sends from this address where no other is chosen, and whose sessions begin at a number of
/// this start's own.
fn settings_for<R: Machine>(rt: &R, words: &[&str], from: Address) -> Result<Settings, Fault>
    ensures { IfOk result (λ settings. AreSettings settings) }
{
    let mut settings = recovering(rt, words)?;
    if !chooses(words, "send-address") {
        settings.send_address = from;
    }
    if !chooses(words, "first-session") {
        settings.first_session = drawn(rt);
    }
    Ok(settings)
}

/// The policy's file, which a driver of this process needs.
fn policy_of<'a>(talk: &Talk<'a>) -> Result<&'a str, Fault> {
    match talk.policy {
        Some(policy) => Ok(policy),
        None => Err(Fault::NoPolicy),
    }
}

/// What is done beside the task.
fn chores_of<R: Machine>(
    rt: &R,
    talk: &Talk<'_>,
    text: Vec<u8>,
    names: Named,
    liveness: u64,
) -> Result<Chores, Fault> {
    Ok(Chores {
        policy: owned(rt.alloc(), policy_of(talk)?)?,
        text,
        names,
        reload_every: talk.reload_every.map(seconds),
        stats: talk.stats,
        liveness,
    })
}

/// The principal for whom a client acts.
fn principal_of<R: Machine>(rt: &R, names: &Named, name: &str) -> Result<u32, Fault> {
    match names.directory.number_of(name) {
        Some(number) => Ok(number),
        None => Err(refuse(rt, "--as", name, "unknown principal")),
    }
}

/// Starts a driver under the policy in the file, and does the task. What is wrong with the file is said so.
fn begin<R: Machine, F: Disk>(
    rt: &R,
    files: &F,
    talk: &Talk<'_>,
    saying: Saying,
    settings: Settings,
    side: Side,
    task: Task,
) -> Result<(), Fault>
    requires { AreSettings settings }
{
    let names = Named::read(rt, files, saying, talk.names)?;
    let path = policy_of(talk)?;
    let text = bytes_of(rt, files, saying, path)?;
    let policy = names.policy(rt, saying, path, text.as_slice())?;
    let principal = principal_of(rt, &names, talk.principal)?;
    let let_in = strangers::Wanted {
        strangers: talk.strangers,
        asks: talk.asks,
        window: window_on(talk.channel, settings.term_length),
        peers: talk.peers,
    };
    let bound = bound_by(rt, names.directory.names(), let_in)?;
    let chores = chores_of(rt, talk, text, names, settings.client_liveness)?;
    let work = Work {
        principal,
        chores,
        side,
        task,
    };
    with_client(*rt, *files, settings, policy, bound, work)
}

/// The addresses to which messages go too, with their channels.
fn others_of<R: Machine>(rt: &R, words: &[&str]) -> Result<Vec<Other>, Fault> {
    let alloc = rt.alloc();
    let mut others = Vec::new(alloc);
    for word in words {
        let address = address_in(rt, "--to", word)?;
        let channel = format!(in alloc; "aeron:udp?endpoint={address}")?;
        others.push(Other { address, channel })?;
    }
    Ok(others)
}

/// Standard input goes out as messages.
fn publish<R: Machine, F: Disk>(
    rt: &R,
    files: &F,
    talk: &Talk<'_>,
    by: Cut,
    wait: u64,
    linger: u64,
    to: &[&str],
) -> Result<(), Fault> {
    if let Some(path) = talk.driver {
        let _ = channel_of(rt, talk.channel)?;
        let offering = Offering {
            channel: talk.channel,
            stream: talk.stream,
            by,
            wait: seconds(wait),
        };
        return Ok(service_remote::publish(rt, files, path, &offering)?);
    }
    let to = others_of(rt, to)?;
    let first = to.first().map(|other| other.address);
    let publishing = Publishing {
        channel: owned(rt.alloc(), talk.channel)?,
        stream: talk.stream,
        by,
        wait: seconds(wait),
        linger: seconds(linger),
        to,
        fail_on_gap: talk.fail_on_gap,
    };
    let channel = reaching(rt, talk.channel)?;
    let control = control_of(&channel);
    let address = publisher_address(control.or(channel.endpoint()).or(first));
    let settings = publishing_settings(
        chooses(talk.settings, "term-length"),
        settings_for(rt, talk.settings, address)?,
    );
    can_open(rt, settings.send_address)?;
    let mut side = Side::Sends;
    if let Some(control) = control {
        can_open(rt, control)?;
        side = Side::Learns;
    }
    let task = Task::Publish(publishing);
    begin(rt, files, talk, Saying::Placed, settings, side, task)
}

/// Messages that come are printed.
fn subscribe<R: Machine, F: Disk>(
    rt: &R,
    files: &F,
    talk: &Talk<'_>,
    join: Option<Join<'_>>,
    reading: Reading,
) -> Result<(), Fault> {
    if let Some(path) = talk.driver {
        if join.is_some() {
            return Err(Fault::OwnDriver);
        }
        let _ = channel_of(rt, talk.channel)?;
        let wanted = Wanted {
            channel: talk.channel,
            stream: talk.stream,
            count: reading.count,
            form: reading.form,
            until_gone: reading.until_gone,
        };
        return Ok(service_remote::subscribe(rt, files, path, &wanted)?);
    }
    let mut subscribing = Subscribing {
        channel: owned(rt.alloc(), talk.channel)?,
        stream: talk.stream,
        endpoint: None,
        join: None,
        count: reading.count,
        form: reading.form,
        until: reading.until.map(seconds),
        until_gone: reading.until_gone,
        fail_on_gap: talk.fail_on_gap,
        wait: seconds(reading.wait),
        status_interval: 0,
        image_liveness: 0,
    };
    let endpoint = reaching(rt, talk.channel)?.endpoint();
    let join = elicitation_of(rt, join, endpoint, talk.stream)?;
    let settings = reporting_settings(
        chooses(talk.settings, "status-interval"),
        settings_for(rt, talk.settings, NO_PUBLISHER)?,
    );
    let mut settings = subscribing_settings(chooses(talk.settings, "arena-pages"), settings);
    settings.send_address = NO_PUBLISHER;
    if let Some(endpoint) = endpoint {
        can_open(rt, endpoint)?;
    }
    subscribing.endpoint = endpoint;
    subscribing.join = join;
    subscribing.status_interval = settings.status_interval;
    subscribing.image_liveness = settings.image_liveness;
    let task = Task::Subscribe(subscribing);
    let side = Side::Receives;
    begin(rt, files, talk, Saying::Placed, settings, side, task)
}

/// The words of a trial. What is not chosen is `none`.
fn trial_words<'a>(
    policy: &'a str,
    names: Option<&'a str>,
    principal: &'a str,
    none: Option<&'a str>,
) -> Talk<'a> {
    Talk {
        policy: Some(policy),
        driver: none,
        names,
        principal,
        settings: &[],
        peers: &[],
        strangers: none,
        asks: None,
        channel: "",
        stream: 0,
        reload_every: None,
        stats: false,
        fail_on_gap: false,
    }
}

/// Tries a driver with one client that sends itself a message. What is wrong with the policy's file is said so.
fn run<'a, R: Machine, F: Disk>(
    rt: &R,
    files: &F,
    policy: &'a str,
    names: Option<&'a str>,
    principal: &'a str,
    saying: Saying,
    trial: Trial,
) -> Result<(), Fault> {
    let talk = trial_words(policy, names, principal, None);
    begin(
        rt,
        files,
        &talk,
        saying,
        Settings::default(),
        Side::Sends,
        Task::TryOut(trial),
    )?;
    say(rt, "stopped")
}

/// What is wanted where a door is named.
const DOOR: &str =
    "wanted PRINCIPAL, PRINCIPAL=UID, PRINCIPAL=UID:GID or PRINCIPAL=PATH; no part of a path is empty, begins with `.`, or has `..` or a control byte";

/// The doors that words name.
fn plans_of<'a, R: Machine>(
    rt: &R,
    names: &Names,
    words: &[&'a str],
) -> Result<Vec<Plan<'a>>, Fault> {
    let mut plans = Vec::new(rt.alloc());
    for word in words {
        let Some((name, place)) = place_in(word) else {
            return Err(refuse(rt, "--door", word, DOOR));
        };
        let Some(principal) = names.number_of(name) else {
            return Err(refuse(rt, "--door", word, "unknown principal"));
        };
        let plan = Plan {
            principal,
            name,
            place,
        };
        if let Some(why) = clash(rt.alloc(), plans.as_slice(), &plan)? {
            return Err(give_up(rt, &why));
        }
        plans.push(plan)?;
    }
    Ok(plans)
}

/// How a driver is to serve.
fn serving_of(doors: &Doors<'_>, settings: &Settings) -> Serving {
    let asked = AskedBounds {
        each: doors.each,
        publications: doors.publications,
        pages: doors.pages,
        subscriptions: doors.subscriptions,
        counters: doors.counters,
    };
    let count = doors.doors.len() as u64;
    Serving {
        each: asked.each(count),
        bounds: asked.bounds(u64::from(settings.arena_pages), count),
        usual: Usual {
            term_length: settings.term_length,
            linger: settings.linger,
        },
        liveness: settings.client_liveness,
        reload_every: doors.reload_every.map(seconds),
    }
}

/// How long its clients may be silent, and have something to read and not go on.
fn patience_of(doors: &Doors<'_>, settings: &Settings) -> Patience {
    let unread = match doors.poll_within {
        0 => None,
        within => Some(seconds(within)),
    };
    Patience {
        liveness: settings.client_liveness,
        unread,
    }
}

/// A driver that serves may go without an address from which it sends, if none was chosen: its clients then have IPC, and what
/// comes over UDP. It is said.
fn say_if_taken<R: Machine>(
    rt: &R,
    log: &Arc<Log>,
    words: &[&str],
    address: Address,
) -> Result<(), Fault> {
    match can_open(rt, address) {
        Ok(()) => Ok(()),
        Err(fault) if chooses(words, "send-address") => Err(fault),
        Err(fault) => {
            let text = format!(in rt.alloc();
                "{fault}: nothing is sent over UDP, unless --setting send-address names a free address"
            );
            log.say(rt, text);
            Ok(())
        }
    }
}

/// Where is said what happens at the doors.
fn log_for<R: Machine>(rt: &R, plans: &[Plan<'_>]) -> Result<Arc<Log>, Fault> {
    let log = Log::open(*rt)?;
    for plan in plans {
        log.pace(rt, plan.principal, plan.name)?;
    }
    Ok(log)
}

/// What a driver that serves takes from its files and from the words that use their names.
#[derive(Drop)]
struct Orders<'a> {
    policy: Policy,
    bound: Bound,
    plans: Vec<Plan<'a>>,
    /// The policy's file.
    shelf: Arc<Shelf>,
    /// What its rules and the principals are called.
    book: Book,
}

/// From where datagrams may come, and at which doors clients come in. What is wrong with the words is said on standard error.
fn ways_in<'a, R: Machine>(
    rt: &R,
    names: &Names,
    doors: &Doors<'a>,
) -> Result<(Bound, Vec<Plan<'a>>), Fault> {
    let let_in = strangers::Wanted {
        strangers: doors.strangers,
        asks: doors.asks,
        window: GREATEST,
        peers: doors.peers,
    };
    let bound = bound_by(rt, names, let_in)?;
    let plans = plans_of(rt, names, doors.doors)?;
    Ok((bound, plans))
}

/// Reads the files of a driver that serves. What is wrong with them is said on standard error.
fn orders_of<'a, R: Machine, F: Disk>(
    rt: &R,
    files: &F,
    doors: &Doors<'a>,
) -> Result<Orders<'a>, Fault> {
    let alloc = rt.alloc();
    let saying = Saying::Placed;
    let names = Named::read(rt, files, saying, doors.names)?;
    let text = regular_bytes_of(rt, files, saying, doors.policy)?;
    let policy = names.policy(rt, saying, doors.policy, text.as_slice())?;
    keep(rt, files, &names, text.as_slice(), doors.cases)?;
    let book = Book::of(alloc, &names.directory, &policy, 1)?;
    let (bound, plans) = ways_in(rt, names.directory.names(), doors)?;
    let sources = Sources::new(alloc, doors.policy, doors.cases, text, names)?;
    let shelf = Shelf::new(alloc, sources)?;
    Ok(Orders {
        policy,
        bound,
        plans,
        shelf,
        book,
    })
}

/// What a driver that serves is asked to do.
fn work_of<R: Machine>(
    rt: &R,
    doors: &Doors<'_>,
    settings: &Settings,
    policy: Arc<Shelf>,
    log: Arc<Log>,
    book: Book,
) -> Result<Serve, Fault> {
    let denials = Denials::new(rt.alloc(), &log, book)?;
    Ok(Serve {
        serving: serving_of(doors, settings),
        patience: patience_of(doors, settings),
        policy,
        log,
        denials,
    })
}

/// A driver serves clients of other processes.
fn serve<R: Machine, F: Disk + SharedFiles>(
    rt: &R,
    files: &F,
    doors: &Doors<'_>,
) -> Result<(), Fault> {
    let Some(mode) = mode_in(doors.mode) else {
        let why = "wanted up to four digits of base 8, as 660";
        return Err(refuse(rt, "--mode", doors.mode, why));
    };
    let orders = orders_of(rt, files, doors)?;
    let settings = settings_for(rt, doors.settings, publisher_address(None))?;
    let log = log_for(rt, orders.plans.as_slice())?;
    say_if_taken(rt, &log, doors.settings, settings.send_address)?;
    let Orders {
        policy,
        bound,
        plans,
        shelf,
        book,
    } = orders;
    let work = work_of(rt, doors, &settings, shelf, log, book)?;
    serve_clients(
        *rt,
        *files,
        doors.folder,
        plans.as_slice(),
        mode,
        settings,
        policy,
        bound,
        work,
    )
}

/// An operator asks a driver that serves.
fn give_order<R: Machine, F: Disk>(
    rt: &R,
    files: &F,
    path: &str,
    order: Order,
) -> Result<(), Fault> {
    let request = match order {
        Order::Stop => Request::Stop,
        Order::Reload => Request::Reload,
        Order::Status => Request::Status,
    };
    Ok(print_order(rt, files, path, request)?)
}

/// Does what a subcommand that starts a driver is asked to do. Standard error may be a terminal.
pub(crate) fn start<R: Machine, F: Disk + SharedFiles>(
    rt: &R,
    files: &F,
    asked: Start<'_>,
    is_terminal: bool,
) -> Result<(), Fault> {
    match asked {
        Start::Run {
            policy,
            names,
            principal,
            tries,
            audit,
        } => {
            let saying = Saying::plain_or_both(is_terminal);
            let trial = Trial { tries, audit };
            run(rt, files, policy, names, principal, saying, trial)
        }
        Start::Publish {
            talk,
            by,
            wait,
            linger,
            to,
        } => publish(rt, files, &talk, by, wait, linger, to),
        Start::Subscribe {
            talk,
            join,
            reading,
        } => subscribe(rt, files, &talk, join, reading),
        Start::Serve { doors } => serve(rt, files, &doors),
        Start::Stat { driver, every } => {
            Ok(print_counters(rt, files, driver, every.map(seconds))?)
        }
        Start::Decisions {
            driver,
            denied,
            follow,
            json,
        } => {
            let watched = Watched {
                denied,
                json,
                follow,
            };
            Ok(watch_decisions(rt, files, driver, watched)?)
        }
        Start::Order { driver, order } => give_order(rt, files, driver, order),
    }
}
