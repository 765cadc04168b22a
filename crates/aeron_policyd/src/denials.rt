//! What a driver that serves denied is said: each denial when it first comes, and after ten seconds how often it came again. All
//! threads that know of denials say them here, and wait for nobody who reads the lines.

use crate::book::{Book, Books};
use crate::decided::{Choice, Lately, Taken};
use crate::fault::Fault;
use denial_notes::{Denial, Notes};
use program_parts::{Log, SECOND, ticks};
use service_doors::Decided;
use std::alloc::{AllocError, Global};
use std::sync::{Arc, Mutex, Wait};
use std::time::Clock;

/// How many denials of a principal may be over at once.
const ROWS: usize = 16;

/// How far lines are apart that say how many others of a principal there were, in nanoseconds.
const OTHERS_APART: u64 = 10 * SECOND;

/// The denials of a principal that were said lately.
#[derive(Drop)]
struct Table {
    principal: u32,
    notes: Notes,
    /// When it is said next how many others there were, in nanoseconds.
    others_due: u64,
}

/// What was said lately, and by which names.
#[derive(Drop)]
struct Desk {
    books: Books,
    tables: Vec<Table>,
    /// What was decided lately, denied or not.
    lately: Lately,
}

/// What was said of denials, and where.
#[derive(Drop)]
pub(crate) struct Denials {
    alloc: Global,
    log: Arc<Log>,
    desk: Mutex<Desk>,
}

/// The line that says how many denials of a principal were not said one by one.
fn others(alloc: Global, books: &Books, principal: u32, count: u64) -> Result<String, AllocError> {
    let name = books.principal(alloc, principal)?;
    format!(in alloc; "{name}: {count} other denials")
}

impl Table {
    /// What is over is told.
    fn tell<R: Wait>(&mut self, rt: &R, alloc: Global, log: &Arc<Log>, books: &Books, now: u64) {
        for _row in 0..ROWS {
            let Some(repeated) = self.notes.next_due(now) else {
                break;
            };
            if repeated.times > 0 {
                log.say(rt, books.again(alloc, &repeated));
            }
        }
        if now >= self.others_due {
            self.tell_others(rt, alloc, log, books, now);
        }
    }

    /// It is told how many were not said one by one.
    fn tell_others<R: Wait>(
        &mut self,
        rt: &R,
        alloc: Global,
        log: &Arc<Log>,
        books: &Books,
        now: u64,
    ) {
        let count = self.notes.take_others();
        if count > 0 {
            log.say(rt, others(alloc, books, self.principal, count));
            self.others_due = now.saturating_add(OTHERS_APART);
        }
    }
}

impl Desk {
    /// The place of a principal's table, which is made where there is none.
    fn place_of(&mut self, principal: u32) -> Result<usize, AllocError> {
        let found = self
            .tables
            .iter()
            .position(|table| table.principal == principal);
        if let Some(place) = found {
            return Ok(place);
        }
        let place = self.tables.len();
        match self.tables.push(Table {
            principal,
            notes: Notes::new(),
            others_due: 0,
        }) {
            Ok(()) => Ok(place),
            Err(_) => Err(AllocError),
        }
    }

    /// Whether a denial is to be said now. One for which there is no memory is.
    fn note(&mut self, now: u64, denial: &Denial) -> bool {
        let Ok(place) = self.place_of(denial.principal) else {
            return true;
        };
        match self.tables.get_mut(place) {
            Some(table) => table.notes.note(now, denial),
            None => true,
        }
    }

    /// What is over is told.
    fn tell<R: Wait>(&mut self, rt: &R, alloc: Global, log: &Arc<Log>, now: u64) {
        let Desk { books, tables, .. } = self;
        for table in tables.iter_mut() {
            table.tell(rt, alloc, log, &*books, now);
        }
    }
}

impl Denials {
    /// Nothing was denied yet. The first policy has these names.
    pub(crate) fn new(alloc: Global, log: &Arc<Log>, first: Book) -> Result<Arc<Denials>, Fault> {
        let denials = Denials {
            alloc,
            log: Arc::try_clone(log)?,
            desk: Mutex::new(Desk {
                books: Books::new(first),
                tables: Vec::new(alloc),
                lately: Lately::new(alloc)?,
            }),
        };
        match Arc::new(alloc, denials) {
            Ok(denials) => Ok(denials),
            Err(_) => Err(Fault::NO_MEMORY),
        }
    }

    /// A policy is put in force.
    pub(crate) fn enter<R: Wait>(&self, rt: &R, book: Book) {
        let mut desk = self.desk.lock(rt);
        desk.books.enter(book);
    }

    /// Something was decided. Where it is a denial that was not said lately, it is said.
    pub(crate) fn note<R: Clock + Wait>(&self, rt: &R, taken: Taken) {
        let mut desk = self.desk.lock(rt);
        desk.lately.take(taken);
        let Some(denial) = Denial::of(&taken.decision) else {
            return;
        };
        let now = ticks(rt);
        if desk.note(now, &denial) {
            self.log.say(rt, desk.books.first(self.alloc, &denial));
        }
    }

    /// What was decided from a number on, for an operator.
    pub(crate) fn decided<R: Wait>(
        &self,
        rt: &R,
        from: u64,
        choice: Choice,
    ) -> Result<Decided, AllocError> {
        let desk = self.desk.lock(rt);
        desk.lately.from(self.alloc, &desk.books, from, choice)
    }

    /// A line is said beside these.
    pub(crate) fn say<R: Wait>(&self, rt: &R, text: Result<String, AllocError>) {
        self.log.say(rt, text);
    }

    /// It is said how often denials came again whose ten seconds are over.
    pub(crate) fn tell<R: Clock + Wait>(&self, rt: &R) {
        let now = ticks(rt);
        let mut desk = self.desk.lock(rt);
        desk.tell(rt, self.alloc, &self.log, now);
    }
}
