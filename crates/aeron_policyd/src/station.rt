//! A driver of this process with its one client, and what is done for them beside the messages: the client says that it is
//! there, the policy's file is read again, and figures are printed, each in its time.

use crate::causes::{Causes, total};
use crate::fault::Fault;
use crate::files::{Unread, still_bytes};
use crate::named::Named;
use crate::reported::Notes;
use crate::strangers::dropped_line;
use byte_strings::Text;
use guarded_wire::Drops;
use media_driver::{
    Client, ClientReply, Driver, DriverNaming, MachineClock, Miss, PushFault, ReloadFault,
};
use piped_messages::Losses;
use policy_answers::refusal;
use policy_query::Document;
use program_parts::{Disk, Machine, SECOND, pause_until, report, ticks};
use rtrb::Consumer;
use std::alloc::{AllocError, Global};
use std::str;
use std::sync::Arc;
use std::thread::Parker;

/// The driver of this process.
pub(crate) type OwnDriver<N, R> = Driver<N, R, MachineClock<R>>;

/// Its client.
pub(crate) type OwnClient<N, R> = Client<N, MachineClock<R>>;

/// What is asked for beside the messages.
#[derive(Drop)]
pub(crate) struct Chores {
    /// The policy's file.
    pub(crate) policy: String,
    /// The bytes that were read from it last.
    pub(crate) text: Vec<u8>,
    /// The names of principals that it may use.
    pub(crate) names: Named,
    /// After how long it is read again, in nanoseconds, if it is.
    pub(crate) reload_every: Option<u64>,
    /// Whether figures are printed every second.
    pub(crate) stats: bool,
    /// How long the driver lets its client be silent, in nanoseconds.
    pub(crate) liveness: u64,
}

/// Which NAKs are printed: those that came, or those that went.
#[derive(Clone, Copy)]
pub(crate) enum Naks {
    Heard,
    Asked,
}

/// When which of these is due next, in nanoseconds of the machine's steady clock.
#[derive(Clone, Copy)]
struct Due {
    keepalive: u64,
    reload: u64,
    stats: u64,
}

/// What a client has in common with its driver, beside the driver's own.
#[derive(Drop)]
pub(crate) struct Ties {
    /// What is noted at its sockets.
    pub(crate) notes: Arc<Notes>,
    /// What wakes the client.
    pub(crate) bell: Arc<Parker>,
    /// What is dropped at its sockets.
    pub(crate) drops: Arc<Drops>,
    /// The sessions in which something was asked for again, once for each time.
    pub(crate) naks: Consumer<i32, Global>,
}

/// A driver with its one client.
pub(crate) struct Station<N: DriverNaming, R: Machine, F: Disk> {
    pub(crate) rt: R,
    pub(crate) driver: OwnDriver<N, R>,
    pub(crate) client: OwnClient<N, R>,
    pub(crate) ties: Ties,
    pub(crate) causes: Causes,
    files: F,
    chores: Chores,
    due: Due,
    /// When what is due was done last, in nanoseconds.
    tended: u64,
}

/// What is wrong with a policy, in the words of `lint`, if anything is.
fn why_not<R: Machine>(rt: &R, chores: &Chores, bytes: &[u8]) -> Result<Option<Text>, Fault> {
    let origin = chores.names.origin(chores.policy.as_str());
    let document = Document::read(rt.alloc(), bytes)?;
    Ok(refusal(rt.alloc(), &document, &chores.names.directory, origin)?)
}

/// These bytes are put in force, and what comes of it is printed.
fn put_in_force<N: DriverNaming + Send + Sync + 'static, R: Machine>(
    rt: &R,
    driver: &mut OwnDriver<N, R>,
    chores: &Chores,
    bytes: &[u8],
) -> Result<(), Fault> {
    if let Some(why) = why_not(rt, chores, bytes)? {
        let _ = eprintln!(rt; "policy refused: {why}");
        return Ok(());
    }
    let text = str::from_utf8(bytes).unwrap_or("");
    let names = chores.names.directory.names();
    match driver.reload(names, text) {
        Ok(_) => report(rt, "policy in force"),
        Err(ReloadFault::NoMemory) => return Err(Fault::NO_MEMORY),
        Err(ReloadFault::Full) => report(rt, "policy refused: full"),
        Err(ReloadFault::Policy(fault)) => {
            let _ = eprintln!(rt; "policy refused: {fault}");
        }
    }
    Ok(())
}

impl<N: DriverNaming + Send + Sync + 'static, R: Machine, F: Disk> Station<N, R, F> {
    pub(crate) fn new(
        rt: R,
        files: F,
        driver: OwnDriver<N, R>,
        client: OwnClient<N, R>,
        ties: Ties,
        causes: Causes,
        chores: Chores,
    ) -> Station<N, R, F> {
        let now = ticks(&rt);
        let reload = now.saturating_add(chores.reload_every.unwrap_or(u64::MAX));
        Station {
            rt,
            driver,
            client,
            ties,
            causes,
            files,
            chores,
            due: Due {
                keepalive: now,
                reload,
                stats: now.saturating_add(SECOND),
            },
            tended: now,
        }
    }

    /// When what is due was done last, in nanoseconds of the machine's steady clock.
    pub(crate) fn tended(&self) -> u64 {
        self.tended
    }

    /// The driver and its client, for the end.
    pub(crate) fn into_parts(self) -> (OwnDriver<N, R>, OwnClient<N, R>) {
        let Station {
            rt: _,
            driver,
            client,
            ties: _,
            causes: _,
            files: _,
            chores: _,
            due: _,
            tended: _,
        } = self;
        (driver, client)
    }

    /// What the machine's steady clock stands at, in nanoseconds.
    pub(crate) fn now(&self) -> u64 {
        ticks(&self.rt)
    }

    /// A wait of the client goes on, as by [`pause_until`]: the driver wakes it where something may have come.
    pub(crate) fn pause(&self, waited: u32) {
        pause_until(&self.rt, &self.ties.bell, waited);
    }

    /// What was lost so far, as the driver counts it.
    pub(crate) fn losses(&self, naks: Naks) -> Losses {
        let tallies = self.driver.tallies();
        let repairs = tallies.repairs();
        let unsent = total(&tallies, Miss::Unsent);
        Losses {
            naks: match naks {
                Naks::Heard => repairs.heard,
                Naks::Asked => repairs.asked,
            },
            resent: repairs.resent,
            bad: total(&tallies, Miss::Unread),
            failed: unsent.saturating_add(total(&tallies, Miss::Unheard)),
        }
    }

    /// Says how many datagrams were dropped as they came, if any were.
    pub(crate) fn say_dropped(&self) -> Result<(), AllocError> {
        if let Some(line) = dropped_line(self.rt.alloc(), &self.ties.drops)? {
            report(&self.rt, line.as_str());
        }
        Ok(())
    }

    /// The next reply to the client.
    pub(crate) fn next_reply(&mut self) -> Option<ClientReply> {
        let mail = self.client.next_mail()?;
        Some(mail.reply())
    }

    /// The client says that it is there, four times within the time that it may be silent.
    fn keep_alive(&mut self, now: u64) -> Result<(), Fault> {
        if now >= self.due.keepalive {
            match self.client.keepalive(&self.rt) {
                // it is tried again at the next turn
                Err(PushFault::QueueFull) => return Ok(()),
                Err(fault) => return Err(Fault::from(fault)),
                Ok(_) => self.due.keepalive = now.saturating_add(self.chores.liveness / 4),
            }
        }
        Ok(())
    }

    /// These bytes are put in force, and what comes of it is printed.
    fn put_in_force(&mut self, bytes: &[u8]) -> Result<(), Fault> {
        put_in_force(&self.rt, &mut self.driver, &self.chores, bytes)
    }

    /// The policy's file is read again where it is time to. Where its bytes are others, they are put in force.
    fn reload(&mut self, now: u64) -> Result<(), Fault> {
        let Some(every) = self.chores.reload_every else {
            return Ok(());
        };
        if now < self.due.reload {
            return Ok(());
        }
        self.due.reload = now.saturating_add(every);
        let path = self.chores.policy.as_str();
        match still_bytes(&self.rt, &self.files, path) {
            Ok(bytes) => {
                if bytes.as_slice() != self.chores.text.as_slice() {
                    self.put_in_force(bytes.as_slice())?;
                    self.chores.text = bytes;
                }
            }
            // it is read at the next turn
            Err(Fault::Written) => {}
            Err(fault) => {
                let unread = Unread { path, fault };
                let _ = eprintln!(self.rt; "policy refused: {unread}");
            }
        }
        Ok(())
    }

    /// Does what is due. Whether figures are to be printed.
    pub(crate) fn tend(&mut self) -> Result<bool, Fault> {
        let now = self.now();
        self.tended = now;
        self.keep_alive(now)?;
        self.reload(now)?;
        self.look_for_causes(now);
        if !self.chores.stats || now < self.due.stats {
            return Ok(false);
        }
        self.due.stats = now.saturating_add(SECOND);
        Ok(true)
    }
}
