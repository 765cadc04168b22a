//! Who waits at the doors comes in, and what ended is put away, until the driver is told to stop.

ghost use Rattle.driver_service.specs.declared.reason.Reason.TheVariants.{NoMemory};
ghost use Rattle.service_doors.specs.Guests.{clients_of};
ghost use Rattle.service_doors.specs.Entering.{ActsFor, CameBy, LedBy, WhyNot, finds_end};
ghost use Rattle.std.specs.Option.{is_some};
ghost use Rattle.std.specs.Prelude.{◌≡◌, ◌≤◌, ◌||◌, IfErr, IfOk, IfSome, false, length, nat_le, true};

use crate::bells::Bells;
use crate::doors::Door;
use crate::fault::DoorFault;
use crate::guests::{CLIENTS, Guests, Holders};
use crate::orders::{Heard, tell_decided, tell_reload};
use crate::serving::{Begun, Decided, Entering, Reloaded, Returned, Serving};
use driver_service::Reason;
use mio::unix::SourceFd;
use mio::{Events, Interest, Poll, Token, Waker};
use program_parts::{Log, Machine, ticks};
use service_streams::dismiss;
use std::alloc::Global;
use std::net::Shutdown;
use std::os::fd::AsRawFd;
use std::os::unix::net::UnixStream;
use std::sync::Arc;
use std::time::Duration;

/// How long the driver's own thread sleeps at most, in nanoseconds.
const SLEEP: u64 = 500_000_000;

/// How many come in of whom nothing is to be done, before something else is looked at, at most.
const MOST: usize = 64;

/// A driver's doors, and who came in by them.
#[derive(Drop)]
pub struct Hall<'a, R: Machine> {
    pub(crate) rt: R,
    doors: &'a [Door],
    pub(crate) serving: Serving,
    pub(crate) holders: Holders,
    pub(crate) guests: Guests,
    bells: Arc<Bells>,
    /// Where is said what happens.
    log: Arc<Log>,
    poll: Poll,
    events: Events<Global>,
    /// When the policy's file is read again, in nanoseconds of the machine's clock.
    due: u64,
    /// The door at which is looked first.
    turn: usize,
    /// Whether somebody came in when it was looked last. Others may wait then, of whom nothing else is heard: it is told only
    /// that somebody comes.
    came: bool,
    pub(crate) stop: bool,
}

/// What happened at the doors.
#[derive(Drop)]
pub enum Event<R: Machine> {
    /// Someone came in and is to get a client: [`Hall::begun`] is told what came of it, with the stream beside it.
    Enters(Entering<R>, UnixStream),
    /// An operator asks that the policy's file be read again: [`Hall::tell_reload`] tells them what came of it.
    Asks(UnixStream),
    /// An operator asks what was decided, from a number on, and which of it: [`Hall::tell_decided`] tells them.
    Reads(UnixStream, u64, u32),
    /// It is time to read the policy's file again.
    Due,
    /// Nobody waits, and nothing is due: [`Hall::rest`].
    Quiet,
    /// The driver is to stop.
    Stops,
}

/// It is seen who waits at a door.
fn watch(poll: &Poll, place: usize, door: &Door) -> Result<(), DoorFault> {
    let descriptor = door.listener.as_raw_fd();
    let token = Token(place.saturating_add(1));
    match poll
        .registry()
        .register(&mut SourceFd(&descriptor), token, Interest::READABLE)
    {
        Ok(()) => Ok(()),
        Err(_) => Err(DoorFault::Socket),
    }
}

/// It is seen who waits at the doors.
fn watching<R: Machine>(rt: &R, doors: &[Door]) -> Result<Poll, DoorFault> {
    let Ok(poll) = Poll::new(rt) else {
        return Err(DoorFault::Socket);
    };
    for (place, door) in doors.iter().enumerate() {
        watch(&poll, place, door)?;
    }
    Ok(poll)
}

/// No bell is there yet.
fn no_bells<R: Machine>(rt: &R, doors: &[Door]) -> Result<Arc<Bells>, DoorFault> {
    match Arc::new(rt.alloc(), Bells::new(rt, doors)?) {
        Ok(bells) => Ok(bells),
        Err(_) => Err(DoorFault::NoMemory),
    }
}

impl<'a, R: Machine> Hall<'a, R> {
    /// Nobody came in yet.
    pub fn new(
        rt: R,
        doors: &'a [Door],
        serving: Serving,
        log: Arc<Log>,
    ) -> Result<Hall<'a, R>, DoorFault> {
        let alloc = rt.alloc();
        Ok(Hall {
            rt,
            doors,
            serving,
            holders: Holders::new(alloc, doors, serving.bounds)?,
            guests: Guests::new(alloc)?,
            bells: no_bells(&rt, doors)?,
            log,
            poll: watching(&rt, doors)?,
            events: Events::with_capacity(alloc, CLIENTS)?,
            due: ticks(&rt),
            turn: 0,
            came: false,
            stop: false,
        })
    }

    /// What wakes the driver's own thread.
    pub fn waker(&self) -> Result<Waker, DoorFault> {
        match Waker::new(self.poll.registry(), Token(0)) {
            Ok(waker) => Ok(waker),
            Err(_) => Err(DoorFault::Socket),
        }
    }

    /// What wakes those who sleep at the doors.
    pub fn bells(&self) -> Result<Arc<Bells>, DoorFault> {
        match Arc::try_clone(&self.bells) {
            Ok(bells) => Ok(bells),
            Err(_) => Err(DoorFault::NoMemory),
        }
    }

    /// What the clients of a principal share, and what wakes them.
    fn entering(&self, stream: UnixStream, principal: u32) -> Result<Entering<R>, Reason>
        ensures ok { IfOk result (λ entering. (entering.principal ≡ principal) × (entering.share.room.value.principal ≡ principal)) }
        ensures err { IfErr result (λ reason. reason ≡ NoMemory) }
    {
        let rt = self.rt;
        let Some(share) = self
            .holders
            .share_of(rt, principal, &self.serving, &self.bells)
        else {
            return Err(Reason::NoMemory);
        };
        match Arc::try_clone(&self.bells) {
            Ok(bells) => Ok(Entering {
                stream,
                principal,
                share,
                bells,
            }),
            Err(_) => Err(Reason::NoMemory),
        }
    }

    /// Someone came in by the door of a principal, who does not have as many clients as it may.
    fn admitted(&self, stream: UnixStream, principal: u32) -> Result<Entering<R>, Reason>
        ensures ok { IfOk result (λ entering. (nat_le self.now.serving.each (length (clients_of principal self.now.guests.rows.items)) ≡ false) × (entering.principal ≡ principal) × (entering.share.room.value.principal ≡ principal)) }
        ensures err { IfErr result (λ reason. WhyNot (nat_le self.now.serving.each (length (clients_of principal self.now.guests.rows.items))) reason) }
    {
        if self.guests.count_of(principal) >= self.serving.each {
            return Err(Reason::Full);
        }
        self.entering(stream, principal)
    }

    /// Who came in may not stay, and is told why.
    fn refuse(&self, stream: UnixStream, principal: u32, reason: Reason) {
        let mut stream = stream;
        let name = self.holders.name_of(principal);
        let why = reason.text();
        let refused = format!(in self.rt.alloc(); "client of {name} refused: {why}");
        self.log.say_of(&self.rt, principal, refused);
        dismiss(self.rt.alloc(), &mut stream, reason);
        let _ = stream.shutdown(Shutdown::Both);
    }

    /// Someone came in by the door of a principal: with the stream beside it by which they are told what comes of it.
    fn enter(&self, stream: UnixStream, principal: u32) -> Option<(Entering<R>, UnixStream)>
        ensures { IfSome result (λ came. (came.0.principal ≡ principal) × (came.0.share.room.value.principal ≡ principal)) }
    {
        let limit = Some(Duration::from_nanos(self.serving.liveness));
        let _ = stream.set_read_timeout(limit);
        let _ = stream.set_write_timeout(limit);
        let Ok(told) = stream.try_clone() else {
            return None;
        };
        match self.admitted(stream, principal) {
            Ok(entering) => Some((entering, told)),
            Err(reason) => {
                self.refuse(told, principal, reason);
                None
            }
        }
    }

    /// Who came in got a client and a thread, or did not: `told` is the stream that came beside them. A driver that was ended has
    /// no more clients, so it stops.
    pub fn begun(&mut self, principal: u32, told: UnixStream, begun: Result<Begun, Reason>)
        ensures { self.new.stop ≡ self.old.stop || finds_end begun }
    {
        match begun {
            Ok(begun) => {
                let number = begun.number;
                let name = self.holders.name_of(principal);
                let came = format!(in self.rt.alloc(); "client {number} of {name}");
                self.log.say_of(&self.rt, principal, came);
                self.guests.add(begun, principal, ticks(&self.rt), told);
            }
            Err(reason) => {
                self.stop = self.stop || reason == Reason::Stopped;
                self.refuse(told, principal, reason);
            }
        }
    }

    /// A client came back from its connection. A driver that was ended stops.
    pub fn returned(&mut self, returned: Returned)
        ensures { self.new.stop ≡ self.old.stop || returned.ended }
    {
        self.stop = self.stop || returned.ended;
        self.guests.forget(returned.number);
    }

    /// What came of reading the policy's file again is said.
    pub fn note_reload(&self, came: &Reloaded) {
        let alloc = self.rt.alloc();
        let text = match came {
            Reloaded::Same => return,
            Reloaded::InForce(text) => String::from_str(alloc, text.as_str()),
            Reloaded::Refused(why) => format!(in alloc; "policy refused: {why}"),
            Reloaded::NoMemory => String::from_str(alloc, "policy refused: no memory"),
        };
        self.log.say(&self.rt, text);
    }

    /// An operator who asked for it is told what came of reading the policy's file again.
    pub fn tell_reload(&self, operator: UnixStream, came: &Reloaded) {
        tell_reload(self.rt, operator, came);
    }

    /// An operator who asked for it is told what was decided; without it, that there is no memory.
    pub fn tell_decided(&self, operator: UnixStream, decided: Option<&Decided>) {
        tell_decided(self.rt, operator, decided);
    }

    /// Someone came in by a door. What there is to do then.
    fn meet(&mut self, door: &Door, stream: UnixStream) -> Option<Event<R>>
        ensures { IfSome result (λ event. ActsFor door.now event) }
    {
        match door.principal {
            Some(principal) => match self.enter(stream, principal) {
                Some((entering, told)) => Some(Event::Enters(entering, told)),
                None => None,
            },
            None => match self.hear(stream) {
                Some(Heard::Reload(operator)) => Some(Event::Asks(operator)),
                Some(Heard::Decisions(operator, from, choice)) => {
                    Some(Event::Reads(operator, from, choice))
                }
                None => None,
            },
        }
    }

    /// Whoever waits at a door comes in, if anybody does. What there is to do then; `None` where nobody waits.
    fn accept_at(&mut self, doors: &[Door], place: usize) -> Option<Option<Event<R>>>
        ensures { CameBy doors.now result }
    {
        let door = doors.get(place)?;
        match door.listener.accept() {
            Ok((stream, _)) => Some(self.meet(door, stream)),
            Err(_) => None,
        }
    }

    /// The next one who waits comes in. The door after theirs is looked at first then, so that nobody keeps others out.
    fn accept_next(&mut self, doors: &[Door]) -> Option<Option<Event<R>>>
        ensures { CameBy doors.now result }
    {
        let count = doors.len();
        for step in 0..count {
            let place = self.turn.saturating_add(step) % count;
            if let Some(event) = self.accept_at(doors, place) {
                self.turn = place.saturating_add(1);
                return Some(event);
            }
        }
        None
    }

    /// The next one who waits comes in, and it is kept whether anybody did.
    fn accept(&mut self, doors: &[Door]) -> Option<Option<Event<R>>>
        ensures kept { self.new.came ≡ is_some result }
        ensures came { CameBy doors.now result }
    {
        let event = self.accept_next(doors);
        self.came = event.is_some();
        event
    }

    /// Whether it is time to read the policy's file again. It is due again after that.
    fn is_due(&mut self) -> bool {
        let Some(every) = self.serving.reload_every else {
            return false;
        };
        let now = ticks(&self.rt);
        if now < self.due {
            return false;
        }
        self.due = now.saturating_add(every);
        true
    }

    /// The next event. Who comes in by a door acts for its principal, and shares what is that principal's.
    pub fn next(&mut self) -> Event<R>
        ensures { LedBy self.old.doors.now result }
    {
        if self.stop {
            return Event::Stops;
        }
        let doors = self.doors;
        for _ in 0..MOST {
            match self.accept(doors) {
                Some(Some(event)) => return event,
                Some(None) if self.stop => return Event::Stops,
                Some(None) => {}
                None => break,
            }
        }
        if self.is_due() {
            return Event::Due;
        }
        Event::Quiet
    }

    /// How long there is nothing to do, in nanoseconds.
    fn pause(&self) -> u64
        ensures crowd { self.now.came ≡ true → result ≡ 0 }
        ensures most { result ≤ 500000000 }
    {
        if self.came {
            return 0;
        }
        match self.serving.reload_every {
            Some(_) => SLEEP.min(self.due.saturating_sub(ticks(&self.rt))),
            None => SLEEP,
        }
    }

    /// Waits until somebody comes or comes back, or something is due.
    pub fn rest(&mut self) {
        let longest = Duration::from_nanos(self.pause());
        let _ = self.poll.poll(&mut self.events, Some(longest));
    }

    /// All connections are to end: each says so to its client, and its client comes back.
    pub fn part(&self) {
        self.bells.stop(&self.rt);
        self.guests.shut(Shutdown::Read);
    }

    /// Whether a connection is still there.
    pub fn has_guests(&self) -> bool {
        !self.guests.rows.is_empty()
    }

    /// The connections that are still there are cut off, and their threads end.
    pub fn cut_off(self) {
        self.guests.shut(Shutdown::Both);
        let Hall { rt, guests, .. } = self;
        guests.join(&rt);
    }
}
