//! Lines on standard error, which a thread of its own writes: nobody else waits for whoever reads them.

use crate::fault::PartFault;
use crate::lines::{Lines, Pace};
use crate::machine::{Machine, SECOND, ticks};
use std::alloc::AllocError;
use std::sync::{Arc, Mutex, Wait};
use std::thread::Parker;
use std::time::{Clock, Duration};
use std::{mem, thread};

/// How long the program waits at its end until what was said is written, in milliseconds.
const PARTING: u64 = 500;

/// How long the writing thread sleeps at most, in milliseconds.
const SLEEP: u64 = 1_000;

/// The lines of a door's connections.
#[derive(Drop)]
struct DoorLines {
    principal: u32,
    name: String,
    pace: Pace,
}

/// What the writing thread is to write.
#[derive(Drop)]
struct Desk {
    lines: Lines,
    doors: Vec<DoorLines>,
    /// Whether it writes.
    busy: bool,
}

/// Lines on standard error. What can't be written at once waits; more than may wait is dropped, and counted.
#[derive(Drop)]
pub struct Log {
    desk: Mutex<Desk>,
    /// What wakes the writing thread.
    bell: Parker,
}

/// Writes what is said. The thread ends with the program.
fn write_on<R: Machine>(rt: R, log: Arc<Log>) {
    for _ in rt.forever() {
        let lines = log.next(&rt);
        if lines.are_none() {
            log.bell.park_timeout(&rt, Duration::from_millis(SLEEP));
        } else {
            write(&rt, &lines);
        }
    }
    unreachable!()
}

/// Writes lines, and how many were dropped after them.
fn write<R: Eprint>(rt: &R, lines: &Lines) {
    for text in &lines.waiting {
        let _ = rt.eprintln(text.as_str());
    }
    match lines.dropped {
        0 => {}
        1 => {
            let _ = rt.eprintln("1 line was dropped");
        }
        dropped => {
            let _ = eprintln!(rt; "{dropped} lines were dropped");
        }
    }
}

impl Desk {
    /// A text waits to be written; what is no text for want of memory was dropped.
    fn take(&mut self, text: Result<String, AllocError>) {
        match text {
            Ok(text) => self.lines.take(text),
            Err(_) => self.lines.drop_one(),
        }
    }

    /// Whether a line of a connection of that principal is said in that second.
    fn says(&mut self, principal: u32, second: u64) -> bool {
        for door in self.doors.iter_mut() {
            if door.principal == principal {
                return door.pace.says(second);
            }
        }
        true
    }

    /// What was not said of each door before that second is told.
    fn tell<R: Machine>(&mut self, rt: &R, second: u64) {
        let Desk { lines, doors, .. } = self;
        for door in doors.iter_mut() {
            let unsaid = door.pace.tell(second);
            if unsaid == 0 {
                continue;
            }
            let name = door.name.as_str();
            match format!(in rt.alloc(); "{unsaid} more lines of {name} in a second") {
                Ok(text) => lines.take(text),
                Err(_) => lines.drop_one(),
            }
        }
    }
}

impl Log {
    /// Begins to write.
    pub fn open<R: Machine>(rt: R) -> Result<Arc<Log>, PartFault> {
        let alloc = rt.alloc();
        let desk = Desk {
            lines: Lines::new(alloc),
            doors: Vec::new(alloc),
            busy: false,
        };
        let log = Arc::new(
            alloc,
            Log {
                desk: Mutex::new(desk),
                bell: Parker::new(),
            },
        )?;
        let theirs = Arc::try_clone(&log)?;
        match thread::spawn(&rt, move || write_on(rt, theirs)) {
            Ok(_) => Ok(log),
            Err(_) => Err(PartFault::NoThread),
        }
    }

    /// The connections of a principal's door are to be said, ten lines a second at most.
    pub fn pace<R: Machine>(&self, rt: &R, principal: u32, name: &str) -> Result<(), PartFault> {
        let name = String::from_str(rt.alloc(), name)?;
        let mut desk = self.desk.lock(rt);
        desk.doors.push(DoorLines {
            principal,
            name,
            pace: Pace::NEW,
        })?;
        Ok(())
    }

    /// What there is to write now.
    fn next<R: Machine>(&self, rt: &R) -> Lines {
        let second = ticks(rt) / SECOND;
        let mut desk = self.desk.lock(rt);
        desk.tell(rt, second);
        let lines = mem::replace(&mut desk.lines, Lines::new(rt.alloc()));
        desk.busy = !lines.are_none();
        lines
    }

    /// A text is said, in lines.
    pub fn say<R: Wait>(&self, rt: &R, text: Result<String, AllocError>) {
        {
            let mut desk = self.desk.lock(rt);
            desk.take(text);
        }
        self.bell.unpark();
    }

    /// A line of a connection of that principal is said, unless ten of its door were in this second.
    pub fn say_of<R: Clock + Wait>(
        &self,
        rt: &R,
        principal: u32,
        text: Result<String, AllocError>,
    ) {
        let second = ticks(rt) / SECOND;
        {
            let mut desk = self.desk.lock(rt);
            if !desk.says(principal, second) {
                return;
            }
            desk.take(text);
        }
        self.bell.unpark();
    }

    /// Whether all that was said is written.
    fn is_done<R: Machine>(&self, rt: &R) -> bool {
        let desk = self.desk.lock(rt);
        desk.lines.are_none() && !desk.busy
    }

    /// Waits until all that was said is written, half a second at most.
    pub fn close<R: Machine>(&self, rt: &R) {
        self.bell.unpark();
        for _milliseconds in 0..PARTING {
            if self.is_done(rt) {
                return;
            }
            thread::sleep(rt, Duration::from_millis(1));
        }
    }
}
