//! The driver's own thread looks at what its conductor and its sender denied, and at what comes to nothing on the wire.

use crate::book::Book;
use crate::causes::total;
use crate::decided::{Choice, Taken};
use crate::denials::Denials;
use crate::station::OwnDriver;
use denial_notes::Mark;
use media_driver::{Agent, Audited, Dated, DriverNaming, Miss, Tallies};
use policy_query::Document;
use policy_tools::Directory;
use program_parts::{Machine, SECOND, ticks};
use service_doors::Decided;
use std::alloc::{AllocError, Global};
use std::sync::Arc;
use wire_causes::{Cause, Side};

/// How far looks are apart, in nanoseconds.
const APART: u64 = 400_000_000;

/// How far lines are apart that say how many decisions were passed over, in nanoseconds.
const PASSED_APART: u64 = 10 * SECOND;

/// How far it was looked at what a driver decided, and what came to nothing on the wire.
#[derive(Drop)]
pub(crate) struct Looks {
    denials: Arc<Denials>,
    /// When it is looked next, in nanoseconds.
    due: u64,
    /// The number of the policy in force.
    epoch: u64,
    conductor: Mark,
    sender: Mark,
    /// How many rows of the driver's tallies were looked at.
    causes: usize,
    /// How often something was denied on the wire.
    denied: u64,
    /// How many decisions were passed over since that was said.
    passed: u64,
    /// When that is said next, in nanoseconds.
    passed_due: u64,
}

/// How often something was denied on the wire, as far as it is counted.
fn denied_in(tallies: &Tallies) -> u64 {
    let withheld = total(tallies, Miss::Withheld);
    withheld.saturating_add(total(tallies, Miss::Denied))
}

/// The names under the policy that bytes are, which has that number.
fn book_of(
    alloc: Global,
    directory: &Directory,
    bytes: &[u8],
    epoch: u64,
) -> Result<Option<Book>, AllocError> {
    let document = Document::read(alloc, bytes)?;
    match document.policy(alloc, directory.names()) {
        Ok(policy) => Ok(Some(Book::of(alloc, directory, &policy, epoch)?)),
        Err(_) => Ok(None),
    }
}

/// What is new of what was decided is said, where it is a denial. How many decisions were passed over.
fn note_new<R: Machine>(rt: &R, denials: &Arc<Denials>, mark: &mut Mark, audited: &Audited) -> u64 {
    let fresh = mark.look(audited.dropped, audited.last.as_slice());
    for dated in fresh.came {
        let Dated { stamp, decision } = *dated;
        let moment = stamp.moment;
        denials.note(rt, Taken { moment, decision });
    }
    fresh.passed
}

impl Looks {
    /// Nothing was looked at yet.
    pub(crate) fn new(denials: Arc<Denials>) -> Looks {
        Looks {
            denials,
            due: 0,
            epoch: 1,
            conductor: Mark::NEW,
            sender: Mark::NEW,
            causes: 0,
            denied: 0,
            passed: 0,
            passed_due: 0,
        }
    }

    /// What else says denials.
    pub(crate) fn denials(&self) -> Result<Arc<Denials>, AllocError> {
        match Arc::try_clone(&self.denials) {
            Ok(denials) => Ok(denials),
            Err(_) => Err(AllocError),
        }
    }

    /// What was decided from a number on, for an operator.
    pub(crate) fn decided<R: Machine>(
        &self,
        rt: &R,
        from: u64,
        choice: Choice,
    ) -> Result<Decided, AllocError> {
        self.denials.decided(rt, from, choice)
    }

    /// The policy that bytes are is put in force next. Where there is no memory for its names, its rules are said by number.
    pub(crate) fn announce<R: Machine>(&self, rt: &R, directory: &Directory, bytes: &[u8]) {
        let epoch = self.epoch.saturating_add(1);
        if let Ok(Some(book)) = book_of(rt.alloc(), directory, bytes, epoch) {
            self.denials.enter(rt, book);
        }
    }

    /// It is in force.
    pub(crate) fn entered(&mut self) {
        self.epoch = self.epoch.saturating_add(1);
    }

    /// What the conductor denied since the last look is said.
    fn look_at_conductor<N: DriverNaming, R: Machine>(&mut self, rt: &R, driver: &OwnDriver<N, R>) {
        if let Ok(audited) = driver.audit(Agent::Conductor) {
            let passed = note_new(rt, &self.denials, &mut self.conductor, &audited);
            self.passed = self.passed.saturating_add(passed);
        }
    }

    /// What the sender denied since the last look is said. Of what was passed over it counts only where something was denied.
    fn look_at_sender<N: DriverNaming, R: Machine>(
        &mut self,
        rt: &R,
        driver: &OwnDriver<N, R>,
        tallies: &Tallies,
    ) {
        let denied = denied_in(tallies);
        let is_more = denied > self.denied;
        self.denied = denied;
        if let Ok(audited) = driver.audit(Agent::Sender) {
            let passed = note_new(rt, &self.denials, &mut self.sender, &audited);
            if is_more {
                self.passed = self.passed.saturating_add(passed);
            }
        }
    }

    /// Each cause on the wire that was not said yet is said.
    fn look_at_causes<R: Machine>(&mut self, rt: &R, tallies: &Tallies) {
        let rows = tallies.rows();
        for tally in rows.get(self.causes..).unwrap_or(&[]) {
            if let Some(cause) = Cause::of(Side::Serves, tally) {
                self.denials.say(rt, format!(in rt.alloc(); "{cause}"));
            }
        }
        self.causes = rows.len();
    }

    /// It is said how many decisions were passed over, where it is time to.
    fn tell_passed<R: Machine>(&mut self, rt: &R, now: u64) {
        if self.passed == 0 || now < self.passed_due {
            return;
        }
        let passed = self.passed;
        let text = format!(in rt.alloc(); "{passed} decisions came too fast to be looked at");
        self.denials.say(rt, text);
        self.passed = 0;
        self.passed_due = now.saturating_add(PASSED_APART);
    }

    /// What was denied since the last look is said.
    pub(crate) fn look<N: DriverNaming, R: Machine>(&mut self, rt: &R, driver: &OwnDriver<N, R>) {
        let now = ticks(rt);
        self.due = now.saturating_add(APART);
        self.look_at_conductor(rt, driver);
        let tallies = driver.tallies();
        self.look_at_sender(rt, driver, &tallies);
        self.look_at_causes(rt, &tallies);
        self.denials.tell(rt);
        self.tell_passed(rt, now);
    }

    /// The same, where it is time to.
    pub(crate) fn look_in_time<N: DriverNaming, R: Machine>(
        &mut self,
        rt: &R,
        driver: &OwnDriver<N, R>,
    ) {
        if ticks(rt) >= self.due {
            self.look(rt, driver);
        }
    }
}
