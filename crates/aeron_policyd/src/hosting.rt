//! The driver of this process, as its doors use it.

ghost use Rattle.aeron_policyd.specs.Hosting.{Gives, TakesBack, attach_reason, number_in};
ghost use Rattle.aeron_policyd.specs.Rereading.{ComesOf};
ghost use Rattle.media_driver.specs.Reloading.{Reloads};
ghost use Rattle.policy_query.specs.Document.{text_in};
ghost use Rattle.std.specs.Prelude.{◌≡◌, IfOk, IfSome, Ok};

use crate::connecting::{Entered, Leaving, OwnServed, Tray, run_connection};
use crate::decided::Choice;
use crate::files::SharedFiles;
use crate::keeping::Kept;
use crate::looks::Looks;
use crate::rereading::{Found, Shelf, Sources, begin_reading};
use crate::station::OwnDriver;
use driver_service::Reason;
use media_driver::{AttachFault, DriverNaming, ReloadFault};
use policy_text::Names;
use program_parts::Machine;
use published_registry::Receipt;
use served_clients::Served;
use service_doors::{Begun, Decided, Entering, Reloaded, Returned, Share};
use service_streams::Greeting;
use std::alloc::{AllocError, Global};
use std::os::unix::net::UnixStream;
use std::sync::Arc;
use std::{mem, str, thread};

/// How many operators may wait that the policy's file is read again.
const OPERATORS: usize = 16;

/// How long a client may be silent, and have something to read and not go on.
#[derive(Clone, Copy)]
pub(crate) struct Patience {
    /// How long the driver lets a client be silent, in nanoseconds.
    pub(crate) liveness: u64,
    /// How long a client may have something to read and not go on, in nanoseconds, if there is a bound.
    pub(crate) unread: Option<u64>,
}

/// A driver that serves.
pub(crate) struct Daemon<N: DriverNaming, R: Machine, F: SharedFiles> {
    rt: R,
    files: F,
    driver: OwnDriver<N, R>,
    tray: Arc<Tray<N, R>>,
    patience: Patience,
    policy: Arc<Shelf>,
    /// What was denied is said.
    looks: Looks,
    /// The operators who asked that the policy's file be read again, before it was begun.
    asking: Vec<UnixStream>,
    /// Those for whom it is read now.
    waiting: Vec<UnixStream>,
}

/// Why no client attached.
fn reason_of(fault: AttachFault) -> Reason
    ensures { result ≡ attach_reason fault }
{
    match fault {
        AttachFault::Full => Reason::Full,
        AttachFault::Stopped => Reason::Stopped,
        AttachFault::NoMemory => Reason::NoMemory,
    }
}

/// The text that bytes are; empty where they are none.
fn text_of(bytes: &[u8]) -> &str
    ensures { result.now ≡ text_in bytes.now }
{
    match str::from_utf8(bytes) {
        Ok(text) => text,
        Err(_) => "",
    }
}

/// Bytes, which were found to be a policy, are put in force. Why they are not, where they are not.
fn put_in_force<N: DriverNaming + Send + Sync + 'static, R: Machine>(
    alloc: Global,
    driver: &mut OwnDriver<N, R>,
    names: &Names,
    bytes: &[u8],
) -> Result<Result<Receipt, String>, AllocError>
    ensures { IfOk result (λ put. IfOk put (λ receipt. Reloads names.now (text_in bytes.now) receipt driver.old driver.new)) }
{
    match driver.reload(names, text_of(bytes)) {
        Ok(receipt) => Ok(Ok(receipt)),
        Err(ReloadFault::NoMemory) => Err(AllocError),
        Err(ReloadFault::Full) => Ok(Err(String::from_str(alloc, "policy full")?)),
        Err(ReloadFault::Policy(fault)) => Ok(Err(format!(in alloc; "{fault}")?)),
    }
}

impl<N: DriverNaming + Send + Sync + 'static, R: Machine, F: SharedFiles> Daemon<N, R, F> {
    pub(crate) fn new(
        rt: R,
        files: F,
        driver: OwnDriver<N, R>,
        tray: Arc<Tray<N, R>>,
        patience: Patience,
        policy: Arc<Shelf>,
        looks: Looks,
    ) -> Daemon<N, R, F> {
        Daemon {
            rt,
            files,
            driver,
            tray,
            patience,
            policy,
            looks,
            asking: Vec::new(rt.alloc()),
            waiting: Vec::new(rt.alloc()),
        }
    }

    /// The driver, for the end.
    pub(crate) fn into_driver(self) -> OwnDriver<N, R> {
        let Daemon {
            rt: _,
            files: _,
            driver,
            tray: _,
            patience: _,
            policy: _,
            looks: _,
            asking: _,
            waiting: _,
        } = self;
        driver
    }

    /// A client attaches for that principal.
    fn attach(&mut self, principal: u32, kept: Kept<R>) -> Result<(OwnServed<N, R>, u64), Reason>
        ensures gives { IfOk result (λ x. Gives self.old.driver principal (Ok x.1) self.new.driver) }
        ensures own { IfOk result (λ x. x.0.client.number ≡ x.1) }
        ensures shares { IfOk result (λ x. x.0.habits.keeper ≡ kept) }
    {
        let mut client = match self.driver.client(principal) {
            Ok(client) => client,
            Err(fault) => return Err(reason_of(fault)),
        };
        let number = client.number();
        // What an earlier client left in its ring is passed over, so that there is room for replies to this one.
        let _ = client.next_mail();
        let rt = self.rt;
        let Patience { liveness, unread } = self.patience;
        let served = Served::new(rt, rt.alloc(), client, kept, liveness, unread);
        Ok((served, number))
    }

    /// What a client shares with others, and where is said what is denied to it.
    fn kept(&self, share: Share<R>) -> Result<Kept<R>, Reason>
        ensures { IfOk result (λ kept. kept.share ≡ share) }
    {
        match self.looks.denials() {
            Ok(denials) => Ok(Kept {
                rt: self.rt,
                share,
                denials,
            }),
            Err(_) => Err(Reason::NoMemory),
        }
    }

    /// Who came in gets a client.
    fn entered(&mut self, entering: Entering<R>) -> Result<Entered<N, R>, Reason>
        ensures gives { IfOk result (λ entered. Gives self.old.driver entering.principal (Ok entered.greeting.client) self.new.driver) }
        ensures shares { IfOk result (λ entered. entered.served.habits.keeper.share ≡ entering.share) }
    {
        let Ok(tray) = Arc::try_clone(&self.tray) else {
            return Err(Reason::NoMemory);
        };
        let rt = self.rt;
        let Entering {
            stream,
            principal,
            share,
            bells,
        } = entering;
        let Some(memory) = share.memory() else {
            return Err(Reason::NoMemory);
        };
        let kept = self.kept(share)?;
        let (served, client) = self.attach(principal, kept)?;
        Ok(Entered {
            rt,
            stream,
            served,
            greeting: Greeting {
                principal,
                client,
                liveness: self.patience.liveness,
            },
            bells,
            memory,
            tray,
        })
    }

    /// Who came in gets a client of their principal, and a thread.
    pub(crate) fn begin(&mut self, entering: Entering<R>) -> Result<Begun, Reason>
        ensures { Gives self.old.driver entering.principal (number_in result) self.new.driver }
    {
        let entered = self.entered(entering)?;
        let number = entered.greeting.client;
        match thread::spawn(&self.rt, move || run_connection(entered)) {
            Ok(thread) => Ok(Begun { number, thread }),
            Err(_) => Err(Reason::NoMemory),
        }
    }

    /// The next client whose connection ended goes back to the driver, if there is one.
    pub(crate) fn take_back(&mut self) -> Option<Returned>
        ensures { IfSome result (λ returned. TakesBack returned self.old.driver self.new.driver) }
    {
        let Leaving {
            number,
            client,
            ended,
        } = self.tray.next(&self.rt)?;
        self.driver.take_back(client);
        Some(Returned { number, ended })
    }

    /// The policy's file is to be read again: for an operator, where one asks. Why it is not, if it is not.
    pub(crate) fn ask(&mut self, operator: Option<UnixStream>) -> Option<(UnixStream, Reloaded)> {
        if let Some(operator) = operator {
            if self.asking.len() >= OPERATORS {
                return Some((operator, Reloaded::NoMemory));
            }
            if let Err(refused) = self.asking.push(operator) {
                return Some((refused.value, Reloaded::NoMemory));
            }
        }
        self.read_again();
        None
    }

    /// The policy's file is read again for those who ask, unless it is read already.
    fn read_again(&mut self) {
        if self.policy.is_busy(&self.rt) {
            return;
        }
        let none = Vec::new(self.rt.alloc());
        self.waiting = mem::replace(&mut self.asking, none);
        let is_asked = !self.waiting.is_empty();
        let (rt, files) = (self.rt, self.files);
        if !begin_reading(rt, files, &self.policy, &self.tray, is_asked) {
            self.policy.fail(&self.rt);
        }
    }

    /// What was found in the policy's file is put in force.
    fn put_in_force(&mut self, sources: &mut Sources, found: Found) -> Reloaded
        ensures { ComesOf found result self.old.driver self.new.driver sources.old sources.new }
    {
        let policy = match found {
            Found::Policy(policy) => policy,
            Found::Refused(why) => return Reloaded::Refused(why),
            Found::Nothing => return Reloaded::Same,
            Found::NoMemory => return Reloaded::NoMemory,
        };
        let names = policy.names.directory.names();
        let bytes = policy.bytes.as_slice();
        self.looks
            .announce(&self.rt, &policy.names.directory, bytes);
        match put_in_force(self.rt.alloc(), &mut self.driver, names, bytes) {
            Ok(Ok(_)) => {
                self.looks.entered();
                Reloaded::InForce(sources.entered(policy))
            }
            Ok(Err(why)) => Reloaded::Refused(why),
            Err(_) => Reloaded::NoMemory,
        }
    }

    /// What was decided from a number on, for an operator.
    pub(crate) fn decided(&self, from: u64, choice: u32) -> Result<Decided, AllocError> {
        self.looks.decided(&self.rt, from, Choice::of(choice))
    }

    /// What the driver denied since it was looked at last is said, where it is time to look.
    pub(crate) fn look_in_time(&mut self) {
        self.looks.look_in_time(&self.rt, &self.driver);
    }

    /// The same, for the last time.
    pub(crate) fn look_last(&mut self) {
        self.looks.look(&self.rt, &self.driver);
    }

    /// What was found in the policy's file since, if it was read again, is put in force: what came of it, and who asked.
    pub(crate) fn reread(&mut self) -> Option<(Vec<UnixStream>, Reloaded)> {
        let (mut sources, found) = self.policy.found(&self.rt)?;
        let came = self.put_in_force(&mut sources, found);
        self.policy.rest(&self.rt, sources);
        let none = Vec::new(self.rt.alloc());
        let asked = mem::replace(&mut self.waiting, none);
        if !self.asking.is_empty() {
            self.read_again();
        }
        Some((asked, came))
    }
}
