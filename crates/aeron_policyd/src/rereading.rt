//! The policy's file, which is read again by a thread of its own: no slow disk and no long text holds up the driver's doors.

ghost use Rattle.aeron_policyd.specs.Rereading.{IsVetted};
ghost use Rattle.aeron_policyd.specs.Vetting.{keeps};
ghost use Rattle.std.specs.Prelude.{◌≡◌, IfOk, List, Some, false, is_some, option_map, true, ℕ};

use crate::connecting::Tray;
use crate::fault::Fault;
use crate::files::{SharedFiles, Unread, steady_bytes, steady_or_why};
use crate::moments::now;
use crate::named::Named;
use crate::vetting::{Wanted, why_unkept};
use media_driver::DriverNaming;
use policy_answers::{AskFault, compare, refusal};
use policy_query::Document;
use program_parts::Machine;
use std::alloc::{AllocError, Global};
use std::rt::Files;
use std::sync::{Arc, Mutex, Wait};
use std::time::{Clock, CpuClock};
use std::{mem, thread};

/// The policy's file, and what was read from it.
#[derive(Drop)]
pub(crate) struct Sources {
    path: String,
    /// The file of cases that each policy has to keep, if there is one.
    cases: Option<String>,
    /// The bytes that were read last.
    text: Vec<u8>,
    /// Those that are in force, and their number.
    in_force: Vec<u8>,
    epoch: u64,
    names: Named,
}

/// A policy that was found in the file, and the names with which it is read.
#[derive(Drop)]
pub(crate) struct NewPolicy {
    pub(crate) bytes: Vec<u8>,
    pub(crate) names: Named,
    /// What is said once it is in force.
    pub(crate) said: String,
}

/// What was found in the file.
#[derive(Drop)]
pub(crate) enum Found {
    /// What was read before, or what somebody writes just now.
    Nothing,
    Policy(NewPolicy),
    /// What is no policy, for that reason.
    Refused(String),
    NoMemory,
}

/// Where the file is with its reading.
#[derive(Drop)]
enum Stage {
    Rests(Sources),
    IsRead,
    Done(Sources, Found),
}

/// What the thread that reads shares with the one that has the driver.
#[derive(Drop)]
pub(crate) struct Shelf {
    stage: Mutex<Stage>,
}

/// A reading before it has its thread. Its type asks less than [`Machine`] does, as that of a connection.
#[derive(Drop)]
struct Reading<N: DriverNaming, R: Clock + CpuClock + Wait + Copy + Drop, F: Files + Copy + Drop> {
    rt: R,
    files: F,
    shelf: Arc<Shelf>,
    /// Whoever has the driver is woken here.
    tray: Arc<Tray<N, R>>,
    /// Whether somebody asked for it. Otherwise what was read before is not looked at again.
    is_asked: bool,
}

/// What would be decided otherwise under a new policy at a moment, in lines; nothing where that can't be said.
fn changes<R: Machine>(
    rt: &R,
    sources: &Sources,
    new: &Document<'_>,
    names: &Named,
    moment: u64,
) -> Result<String, AllocError> {
    let old = Document::read(rt.alloc(), sources.in_force.as_slice())?;
    match compare(rt.alloc(), &old, new, &names.directory, moment) {
        Ok(answer) => Ok(String::from_str(rt.alloc(), answer.text.as_str())?),
        Err(AskFault::NoMemory) => Err(AllocError),
        Err(_) => Ok(String::new(rt.alloc())),
    }
}

/// Why the document is no policy, or does not keep the cases at a moment; nothing where it is one that keeps them.
fn why_refused<R: Machine>(
    rt: &R,
    path: &str,
    document: &Document<'_>,
    names: &Named,
    wanted: Option<Wanted<'_>>,
    moment: u64,
) -> Result<Option<String>, AllocError>
    ensures { IfOk result (λ why. (cases : List ℕ) → option_map (λ w. w.bytes.now) wanted.entry ≡ Some cases → is_some why ≡ false → keeps names.now.directory document.now cases moment ≡ true) }
{
    if let Some(why) = why_not(rt, path, document, names)? {
        return Ok(Some(why));
    }
    match wanted {
        Some(wanted) => why_unkept(rt.alloc(), wanted, document, &names.directory, moment),
        None => Ok(None),
    }
}

/// Why the document is no policy, where it is none.
fn why_not<R: Machine>(
    rt: &R,
    path: &str,
    document: &Document<'_>,
    names: &Named,
) -> Result<Option<String>, AllocError> {
    match refusal(rt.alloc(), document, &names.directory, names.origin(path))? {
        Some(why) => Ok(Some(String::from_str(rt.alloc(), why.as_str())?)),
        None => Ok(None),
    }
}

impl Sources {
    /// The policy that was read from that file is in force, as the first. Each later one has to keep the cases of that file, if there
    /// is one.
    pub(crate) fn new(
        alloc: Global,
        path: &str,
        cases: Option<&str>,
        text: Vec<u8>,
        names: Named,
    ) -> Result<Sources, AllocError> {
        let path = String::from_str(alloc, path)?;
        let cases = match cases {
            Some(cases) => Some(String::from_str(alloc, cases)?),
            None => None,
        };
        let in_force = Vec::from_slice(alloc, text.as_slice())?;
        Ok(Sources {
            path,
            cases,
            text,
            in_force,
            epoch: 1,
            names,
        })
    }

    /// What bytes of the file are at a moment, under these names and cases.
    fn found_in<R: Machine>(
        &self,
        rt: &R,
        bytes: &[u8],
        names: Named,
        wanted: Option<Wanted<'_>>,
        moment: u64,
    ) -> Result<Found, AllocError>
        ensures { IfOk result (λ found. IsVetted bytes.now names.directory (option_map (λ w. w.bytes.now) wanted.entry) moment found) }
    {
        let path = self.path.as_str();
        let document = Document::read(rt.alloc(), bytes)?;
        if let Some(why) = why_refused(rt, path, &document, &names, wanted, moment)? {
            return Ok(Found::Refused(why));
        }
        let epoch = self.epoch.saturating_add(1);
        let changes = changes(rt, self, &document, &names, moment)?;
        let changes = changes.as_str().trim_end();
        Ok(Found::Policy(NewPolicy {
            bytes: Vec::from_slice(rt.alloc(), bytes)?,
            names,
            said: format!(in rt.alloc(); "policy {epoch} in force\n{changes}")?,
        }))
    }

    /// What bytes of the file are now, under these names, and under the cases that their file has now.
    fn vetted<R: Machine, F: SharedFiles>(
        &self,
        rt: &R,
        files: &F,
        bytes: &[u8],
        names: Named,
    ) -> Result<Found, AllocError> {
        let moment = match now(rt) {
            Ok(moment) => moment,
            Err(fault) => return Ok(Found::Refused(format!(in rt.alloc(); "{fault}")?)),
        };
        let Some(cases) = &self.cases else {
            return self.found_in(rt, bytes, names, None, moment);
        };
        let path = cases.as_str();
        match steady_or_why(rt, files, path)? {
            Ok(cases) => {
                let wanted = Wanted {
                    path,
                    bytes: cases.as_slice(),
                };
                self.found_in(rt, bytes, names, Some(wanted), moment)
            }
            Err(why) => Ok(Found::Refused(why)),
        }
    }

    /// What new bytes of the file are, by the names that its file has now.
    fn taken<R: Machine, F: SharedFiles>(
        &mut self,
        rt: &R,
        files: &F,
        bytes: Vec<u8>,
    ) -> Result<Found, AllocError> {
        let found = match self.names.again(rt, files)? {
            Ok(names) => self.vetted(rt, files, bytes.as_slice(), names)?,
            Err(why) => Found::Refused(why),
        };
        self.text = bytes;
        Ok(found)
    }

    /// What is found in the file now.
    fn read<R: Machine, F: SharedFiles>(
        &mut self,
        rt: &R,
        files: &F,
        is_asked: bool,
    ) -> Result<Found, AllocError> {
        let path = self.path.as_str();
        match steady_bytes(rt, files, path) {
            Ok(bytes) if !is_asked && bytes.as_slice() == self.text.as_slice() => {
                Ok(Found::Nothing)
            }
            Ok(bytes) => self.taken(rt, files, bytes),
            Err(Fault::Written) if !is_asked => Ok(Found::Nothing),
            Err(fault) => {
                let unread = Unread { path, fault };
                Ok(Found::Refused(format!(in rt.alloc(); "{unread}")?))
            }
        }
    }

    /// What was found is in force. What there is to say of that.
    pub(crate) fn entered(&mut self, policy: NewPolicy) -> String
        ensures { self.new.in_force ≡ policy.bytes }
    {
        let NewPolicy { bytes, names, said } = policy;
        self.in_force = bytes;
        self.names = names;
        self.epoch = self.epoch.saturating_add(1);
        said
    }
}

impl Shelf {
    /// Nothing is read again yet.
    pub(crate) fn new(alloc: Global, sources: Sources) -> Result<Arc<Shelf>, AllocError> {
        let shelf = Shelf {
            stage: Mutex::new(Stage::Rests(sources)),
        };
        match Arc::new(alloc, shelf) {
            Ok(shelf) => Ok(shelf),
            Err(_) => Err(AllocError),
        }
    }

    /// The file's sources, where nobody has them, and what was found where it was read.
    fn take<R: Machine>(&self, rt: &R) -> Stage {
        let mut stage = self.stage.lock(rt);
        mem::replace(&mut *stage, Stage::IsRead)
    }

    /// The file's sources stand there again.
    fn put<R: Machine>(&self, rt: &R, stage: Stage) {
        let mut place = self.stage.lock(rt);
        *place = stage;
    }

    /// The file is at rest.
    pub(crate) fn rest<R: Machine>(&self, rt: &R, sources: Sources) {
        self.put(rt, Stage::Rests(sources));
    }

    /// What was found in the file since it was looked at last, if it was read.
    pub(crate) fn found<R: Machine>(&self, rt: &R) -> Option<(Sources, Found)> {
        let mut stage = self.stage.lock(rt);
        if !matches!(&*stage, Stage::Done(..)) {
            return None;
        }
        match mem::replace(&mut *stage, Stage::IsRead) {
            Stage::Done(sources, found) => Some((sources, found)),
            _ => None,
        }
    }

    /// The file can't be read now, as there is no thread for it.
    pub(crate) fn fail<R: Machine>(&self, rt: &R) {
        let stage = match self.take(rt) {
            Stage::Rests(sources) => Stage::Done(sources, Found::NoMemory),
            other => other,
        };
        self.put(rt, stage);
    }

    /// Whether the file is read, or what was found in it waits to be looked at.
    pub(crate) fn is_busy<R: Machine>(&self, rt: &R) -> bool {
        let stage = self.stage.lock(rt);
        !matches!(&*stage, Stage::Rests(_))
    }
}

/// Reads the file, and wakes whoever has the driver.
fn run_reading<N: DriverNaming, R: Machine, F: SharedFiles>(reading: Reading<N, R, F>) {
    let Reading {
        rt,
        files,
        shelf,
        tray,
        is_asked,
    } = reading;
    let stage = match shelf.take(&rt) {
        Stage::Rests(sources) => {
            let mut sources = sources;
            let found = sources
                .read(&rt, &files, is_asked)
                .unwrap_or(Found::NoMemory);
            Stage::Done(sources, found)
        }
        other => other,
    };
    shelf.put(&rt, stage);
    let _ = tray.waker.wake();
}

/// A thread of its own reads the file again. Whether it does.
pub(crate) fn begin_reading<N: DriverNaming + Send + Sync + 'static, R: Machine, F: SharedFiles>(
    rt: R,
    files: F,
    shelf: &Arc<Shelf>,
    tray: &Arc<Tray<N, R>>,
    is_asked: bool,
) -> bool {
    let (Ok(shelf), Ok(tray)) = (Arc::try_clone(shelf), Arc::try_clone(tray)) else {
        return false;
    };
    let reading = Reading {
        rt,
        files,
        shelf,
        tray,
        is_asked,
    };
    thread::spawn(&rt, move || run_reading(reading)).is_ok()
}
