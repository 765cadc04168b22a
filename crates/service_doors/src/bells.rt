//! What wakes those who wait: a message in a log, or room there, what the driver's threads did, and the end of a connection.

ghost use Rattle.service_doors.specs.Bells.{nap_for};
ghost use Rattle.std.specs.Prelude.{◌≡◌, ◌≤◌};

use crate::budgets::Budgets;
use crate::doors::Door;
use crate::fault::DoorFault;
use crate::memory::DoorMemory;
use driver_service::Pauses;
use mio::unix::SourceFd;
use mio::{Events, Interest, Poll, Token, Waker};
use program_parts::{Machine, ticks};
use service_streams::LongRecords;
use std::alloc::Global;
use std::os::fd::AsRawFd;
use std::os::unix::net::UnixStream;
use std::sync::atomic::{AtomicBool, AtomicU64, Ordering};
use std::sync::{Arc, Mutex, Wait};
use std::thread;
use std::time::{Clock, Duration};

/// For how long a wait yields to other threads before it sleeps, in nanoseconds.
const YIELDING: u64 = 50_000;

/// How long it sleeps then at once at most, in nanoseconds. What comes by time alone, as word of a client that was silent for too
/// long, wakes nobody.
const SLEEP: u64 = 50_000_000;

/// How long it sleeps at once at least, in nanoseconds.
const NAP: u64 = 1_000_000;

/// Which part of what it waited so far it sleeps at once: whoever answers may be long at work on others, and rings when that is
/// done.
const NAPS: u64 = 2;

/// How often a wait may be woken in vain before it sleeps on for a while each time. All who sleep are woken at once, whatever
/// they wait for.
const VAIN: u32 = 16;

/// Which part of what it waited so far it sleeps on then, before it may be woken again.
const DEAF: u64 = 16;

/// How long that is at least and at most, in nanoseconds; where it were less, it may be woken again at once.
const LEAST_DEAF: u64 = 1_000_000;

const MOST_DEAF: u64 = 5_000_000;

/// The token of the connection, and that of who wakes.
const CONNECTION: Token = Token(0);

const WOKEN: Token = Token(1);

/// What wakes one connection.
#[derive(Drop)]
struct Bell {
    /// The id of its client.
    number: u64,
    asleep: AtomicBool,
    waker: Waker,
}

/// What wakes all of them.
#[derive(Drop)]
pub struct Bells {
    /// How many sleep, or are about to.
    sleepers: AtomicU64,
    bells: Mutex<Vec<Arc<Bell>>>,
    /// Whether the driver stops.
    stopping: AtomicBool,
    budgets: Budgets,
}

impl Bells {
    /// Nobody sleeps, and nobody took anything of the processors.
    pub(crate) fn new<R: Machine>(rt: &R, doors: &[Door]) -> Result<Bells, DoorFault> {
        let alloc = rt.alloc();
        Ok(Bells {
            sleepers: AtomicU64::new(0),
            bells: Mutex::new(Vec::new(alloc)),
            stopping: AtomicBool::new(false),
            budgets: Budgets::new(alloc, doors, processors(rt))?,
        })
    }

    /// An agent of the driver that carries messages has something to do, so those of whom it has none go second.
    pub fn agent_works<R: Clock>(&self, rt: &R) {
        self.budgets.agent_works(ticks(rt));
    }

    /// A client of that principal took so much time of a processor. For how long it rests, in nanoseconds.
    pub(crate) fn took<R: Wait>(&self, rt: &R, principal: u32, now: u64, spent: u64) -> u64
        ensures { result ≤ 990000000 }
    {
        self.budgets.took(rt, principal, now, spent)
    }

    /// Whoever sleeps goes on: something came that some of them may wait for. Where nobody sleeps, it is one load.
    pub fn ring<R: Wait>(&self, rt: &R) {
        if self.sleepers.load(Ordering::SeqCst) == 0 {
            return;
        }
        let bells = self.bells.lock(rt);
        for bell in bells.iter() {
            if self.wakes(bell) {
                let _ = bell.waker.wake();
            }
        }
    }

    /// The driver stops.
    pub(crate) fn stop<R: Wait>(&self, rt: &R) {
        self.stopping.store(true, Ordering::SeqCst);
        self.ring(rt);
    }

    pub(crate) fn is_stopping(&self) -> bool {
        self.stopping.load(Ordering::SeqCst)
    }

    /// One is about to sleep, and is woken from now on. Whether it was not before.
    fn dozes(&self, bell: &Bell) -> bool {
        if bell.asleep.swap(true, Ordering::SeqCst) {
            return false;
        }
        let _ = self.sleepers.fetch_add(1, Ordering::SeqCst);
        true
    }

    /// One does not sleep any more. Whether it did.
    fn wakes(&self, bell: &Bell) -> bool {
        if !bell.asleep.swap(false, Ordering::SeqCst) {
            return false;
        }
        let _ = self.sleepers.fetch_sub(1, Ordering::SeqCst);
        true
    }

    fn enter<R: Wait>(&self, rt: &R, bell: &Arc<Bell>) -> Option<()> {
        let bell = Arc::try_clone(bell).ok()?;
        let mut bells = self.bells.lock(rt);
        bells.push(bell).ok()
    }

    fn leave<R: Wait>(&self, rt: &R, bell: &Bell) {
        let _ = self.wakes(bell);
        let mut bells = self.bells.lock(rt);
        bells.retain(|other| other.number != bell.number);
    }
}

/// How many processors there are, as far as the system says.
fn processors<R: Machine>(rt: &R) -> u64 {
    match thread::available_parallelism(rt) {
        Ok(count) => count.get() as u64,
        Err(_) => 1,
    }
}

/// What a connection sleeps by: until its stream ends, or somebody wakes it.
#[derive(Drop)]
struct Bed {
    poll: Poll,
    events: Events<Global>,
}

impl Bed {
    /// `None` where there is no memory, or the system has no more descriptors.
    fn new<R: Machine>(rt: &R, stream: &UnixStream) -> Option<Bed> {
        let poll = Poll::new(rt).ok()?;
        let descriptor = stream.as_raw_fd();
        poll.registry()
            .register(&mut SourceFd(&descriptor), CONNECTION, Interest::READABLE)
            .ok()?;
        let events = Events::with_capacity(rt.alloc(), 4).ok()?;
        Some(Bed { poll, events })
    }

    /// What wakes it.
    fn waker(&self) -> Option<Waker> {
        Waker::new(self.poll.registry(), WOKEN).ok()
    }

    /// Whether the other end of the connection is gone, by what was seen last.
    fn is_left(&self) -> bool {
        for event in self.events.iter() {
            if event.token() == CONNECTION && event.is_read_closed() {
                return true;
            }
        }
        false
    }

    /// Sleeps for so many nanoseconds at most. Whether the other end of the connection is gone.
    fn sleep(&mut self, longest: u64) -> bool {
        let longest = Some(Duration::from_nanos(longest));
        let _ = self.poll.poll(&mut self.events, longest);
        self.is_left()
    }
}

/// How a connection waits.
#[derive(Drop)]
pub struct Watch<R: Clock + Wait + Copy + Drop> {
    rt: R,
    bells: Arc<Bells>,
    bell: Arc<Bell>,
    memory: DoorMemory,
    bed: Bed,
    /// When this wait began, in nanoseconds of the steady clock.
    began: u64,
    /// Whether somebody woke it last, and that was in vain if it waits on.
    woken: bool,
    /// How often it was woken.
    wakes: u32,
    /// Whether the other end of the connection is gone.
    gone: bool,
}

/// What wakes the connection of that client.
fn bell_for(alloc: Global, bed: &Bed, number: u64) -> Option<Arc<Bell>> {
    let waker = bed.waker()?;
    let bell = Bell {
        number,
        asleep: AtomicBool::new(false),
        waker,
    };
    Arc::new(alloc, bell).ok()
}

impl<R: Machine> Watch<R> {
    /// A wait of the client of that number. `None` where there is no memory, or the system has no more descriptors.
    pub fn new(
        rt: R,
        bells: Arc<Bells>,
        memory: DoorMemory,
        stream: &UnixStream,
        number: u64,
    ) -> Option<Watch<R>> {
        let bed = Bed::new(&rt, stream)?;
        let bell = bell_for(rt.alloc(), &bed, number)?;
        bells.enter(&rt, &bell)?;
        Some(Watch {
            rt,
            bells,
            bell,
            memory,
            bed,
            began: 0,
            woken: false,
            wakes: 0,
            gone: false,
        })
    }
}

impl<R: Clock + Wait + Copy + Drop> Watch<R> {
    /// The connection ended.
    pub fn end(&mut self) {
        self.memory.end(&self.rt);
        self.bells.leave(&self.rt, &self.bell);
    }

    /// How long this wait is, of which so many pauses are over, in nanoseconds.
    fn waited(&mut self, turn: u32) -> u64 {
        let now = ticks(&self.rt);
        if turn == 0 {
            self.began = now;
            self.woken = false;
            self.wakes = 0;
        }
        now.saturating_sub(self.began)
    }

    /// Sleeps. Whether the other end is there.
    fn sleep(&mut self, longest: u64) -> bool {
        let left = self.bed.sleep(longest);
        self.gone = self.gone || left;
        !self.gone
    }

    /// Sleeps, unless somebody woke it since it dozed. Whether the other end is there.
    fn doze(&mut self, longest: u64) -> bool {
        let there = self.sleep(longest);
        self.woken = !self.bells.wakes(&self.bell);
        self.wakes = self.wakes.saturating_add(u32::from(self.woken));
        there
    }
}

/// For how long a wait sleeps on that was woken in vain so often and after so long, all in nanoseconds.
fn deaf_for(wakes: u32, waited: u64) -> u64 {
    let part = waited / DEAF;
    if wakes <= VAIN || part < LEAST_DEAF {
        0
    } else {
        part.min(MOST_DEAF)
    }
}

/// For how long a wait sleeps at once that is so long, both in nanoseconds.
fn nap_for(waited: u64) -> u64
    ensures { result ≡ nap_for waited }
{
    (waited / NAPS).max(NAP).min(SLEEP)
}

/// Lets others go on for a while. Whether to wait on: not where nobody waits for the answer any more.
fn pause_of<R: Clock + Wait + Copy + Drop>(watch: &mut Watch<R>, turn: u32, longest: u64) -> bool {
    if watch.gone || watch.bells.is_stopping() {
        return false;
    }
    let waited = watch.waited(turn);
    if waited < YIELDING {
        thread::yield_now();
        return true;
    }
    let deaf = deaf_for(watch.wakes, waited).min(longest);
    if watch.woken && deaf > 0 {
        watch.woken = false;
        return watch.sleep(deaf);
    }
    if watch.bells.dozes(&watch.bell) {
        // From now on it is woken, so the request is tried once more before it sleeps.
        return true;
    }
    watch.doze(nap_for(waited).min(longest))
}

impl<R: Clock + Wait + Copy + Drop> Pauses for Watch<R> {
    fn pause(&mut self, turn: u32, longest: u64) -> bool {
        pause_of(self, turn, longest)
    }

    fn is_stopping(&self) -> bool {
        self.bells.is_stopping()
    }
}

impl<R: Clock + Wait + Copy + Drop> LongRecords for Watch<R> {
    fn begin_long(&mut self, bytes: u64) -> bool {
        for turn in 0..u32::MAX {
            if self.memory.begin(&self.rt, bytes) {
                return true;
            }
            if !pause_of(self, turn, SLEEP) {
                return false;
            }
        }
        false
    }

    fn end_long(&mut self) {
        self.memory.end(&self.rt);
        // another connection of the door may wait for that
        self.bells.ring(&self.rt);
    }
}
