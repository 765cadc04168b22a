//! What an operator asks, by a door of their own.

ghost use Rattle.service_doors.specs.Orders.{asked_of_bytes, refusal_bytes};
ghost use Rattle.std.specs.Prelude.{◌≡◌, ◌++◌, OnOk};

use crate::fault::DoorFault;
use crate::guests::Guest;
use crate::hall::Hall;
use crate::serving::{Decided, Reloaded};
use driver_service::Reason;
use program_parts::{Machine, SECOND, ticks};
use service_records::{Answer, Request, first_record};
use service_streams::dismiss;
use std::alloc::Global;
use std::io;
use std::io::{ErrorKind, Read, Write};
use std::os::unix::net::UnixStream;
use std::time::{Clock, Duration};

/// How long an operator may take in all to ask and to read the answer, in nanoseconds.
const ASKING: u64 = 200_000_000;

/// How long one read or write may take at least, in nanoseconds: a stream knows no shorter time.
const MOMENT: u64 = 1_000_000;

/// How often is read until a request is there, at most.
const READS: usize = 64;

/// What the first record of some bytes asks for, once all of it is there.
enum Asked {
    NotYet,
    For(Request),
    Nothing,
}

/// What an operator asks of whoever has the driver.
#[derive(Drop)]
pub(crate) enum Heard {
    /// That the policy's file be read again.
    Reload(UnixStream),
    /// What was decided, from a number on, and which of it.
    Decisions(UnixStream, u64, u32),
}

/// The stream of an operator, who has until a moment for all that comes and goes on it: nobody else comes in meanwhile.
#[derive(Drop)]
struct Hurried<R: Clock + Copy + Drop> {
    rt: R,
    stream: UnixStream,
    /// The moment, in nanoseconds of the machine's clock.
    end: u64,
}

impl<R: Clock + Copy + Drop> Hurried<R> {
    /// From now on.
    fn new(rt: R, stream: UnixStream) -> Hurried<R> {
        let end = ticks(&rt).saturating_add(ASKING);
        Hurried { rt, stream, end }
    }

    /// How long the next read or write may take.
    ///
    /// # Errors
    /// The time is over.
    fn left(&self) -> io::Result<Option<Duration>> {
        let left = self.end.saturating_sub(ticks(&self.rt));
        if left == 0 {
            return Err(ErrorKind::TimedOut.into());
        }
        Ok(Some(Duration::from_nanos(left.max(MOMENT))))
    }
}

impl<R: Clock + Copy + Drop> Read for Hurried<R> {
    fn read(&mut self, buf: &mut [u8]) -> io::Result<usize> {
        let left = self.left()?;
        self.stream.set_read_timeout(left)?;
        self.stream.read(buf)
    }
}

impl<R: Clock + Copy + Drop> Write for Hurried<R> {
    fn write(&mut self, buf: &[u8]) -> io::Result<usize> {
        let left = self.left()?;
        self.stream.set_write_timeout(left)?;
        self.stream.write(buf)
    }

    fn flush(&mut self) -> io::Result<()> {
        self.stream.flush()
    }
}

/// What the first record of some bytes asks for.
fn asked_by(bytes: &[u8]) -> Asked
    ensures { result ≡ asked_of_bytes bytes.now }
{
    match first_record(bytes) {
        Ok(None) => Asked::NotYet,
        Ok(Some(cut)) => match Request::read(cut.record) {
            Ok((request, _)) => Asked::For(request),
            Err(_) => Asked::Nothing,
        },
        Err(_) => Asked::Nothing,
    }
}

/// More bytes come. Whether more may come: a read that a signal interrupts is made again.
fn read_more<T: Read>(stream: &mut T, bytes: &mut Vec<u8>) -> bool {
    let mut chunk = [0u8; 64];
    match stream.read(&mut chunk) {
        Ok(0) => false,
        Ok(count) => {
            let more = chunk.get(..count).unwrap_or(&[]);
            bytes.extend_from_slice(more).is_ok()
        }
        Err(error) => error.kind() == ErrorKind::Interrupted,
    }
}

/// The first request that comes.
fn request_of<T: Read>(alloc: Global, stream: &mut T) -> Option<Request> {
    let mut bytes = Vec::new(alloc);
    for _reads in 0..READS {
        match asked_by(bytes.as_slice()) {
            Asked::For(request) => return Some(request),
            Asked::Nothing => return None,
            Asked::NotYet => {}
        }
        if !read_more(stream, &mut bytes) {
            return None;
        }
    }
    None
}

/// Each line of a text is a record behind so many others, and one closes them.
fn tell_lines(before: u32, text: &str, out: &mut Vec<u8>) -> Result<(), DoorFault> {
    let mut count = before;
    for line in text.lines() {
        Answer::Line.put(line.as_bytes(), out)?;
        count = count.saturating_add(1);
    }
    Answer::Done { count }.put(&[], out)?;
    Ok(())
}

/// A request is refused.
fn refuse(code: i32, text: &str, out: &mut Vec<u8>) -> Result<(), DoorFault>
    ensures { OnOk result (out.new.items ≡ out.old.items ++ refusal_bytes code text.now) }
{
    Answer::Refused { code }.put(text.as_bytes(), out)?;
    Ok(())
}

/// What came of reading the policy's file again, as records.
fn put_reload(came: &Reloaded, out: &mut Vec<u8>) -> Result<(), DoorFault> {
    match came {
        Reloaded::Same => tell_lines(0, "", out),
        Reloaded::InForce(text) => tell_lines(0, text.as_str(), out),
        Reloaded::Refused(text) => refuse(1, text.as_str(), out),
        Reloaded::NoMemory => refuse(Reason::NoMemory.code(), Reason::NoMemory.text(), out),
    }
}

/// What was decided, as records: the number from which on later ones are asked for, and lines.
fn put_decided(decided: &Decided, out: &mut Vec<u8>) -> Result<(), DoorFault> {
    let value = decided.next.min(i64::MAX as u64) as i64;
    Answer::Value { value }.put(&[], out)?;
    tell_lines(1, decided.lines.as_str(), out)
}

/// Records go to an operator, or that there was no memory for them.
fn send<T: Write>(alloc: Global, stream: &mut T, put: Result<(), DoorFault>, out: &[u8]) {
    match put {
        Ok(()) => {
            let _ = stream.write_all(out);
        }
        Err(_) => dismiss(alloc, stream, Reason::NoMemory),
    }
}

/// An operator is told what was decided, or that there is no memory for it.
pub(crate) fn tell_decided<R: Machine>(rt: R, stream: UnixStream, decided: Option<&Decided>) {
    let alloc = rt.alloc();
    let mut out = Vec::new(alloc);
    let put = match decided {
        Some(decided) => put_decided(decided, &mut out),
        None => refuse(Reason::NoMemory.code(), Reason::NoMemory.text(), &mut out),
    };
    let mut stream = Hurried::new(rt, stream);
    send(alloc, &mut stream, put, out.as_slice());
}

/// An operator is told what came of reading the policy's file again.
pub(crate) fn tell_reload<R: Machine>(rt: R, stream: UnixStream, came: &Reloaded) {
    let alloc = rt.alloc();
    let mut out = Vec::new(alloc);
    let put = put_reload(came, &mut out);
    let mut stream = Hurried::new(rt, stream);
    send(alloc, &mut stream, put, out.as_slice());
}

impl<R: Machine> Hall<'_, R> {
    /// A line for a client.
    fn tell_guest(&self, guest: &Guest, now: u64, out: &mut Vec<u8>) -> Result<(), DoorFault> {
        let seconds = now.saturating_sub(guest.since) / SECOND;
        let number = guest.number;
        let principal = guest.principal;
        let name = self.holders.name_of(principal);
        let (publications, subscriptions, counters) = self
            .holders
            .counts_of(&self.rt, principal, number);
        let line = format!(in self.rt.alloc();
            "client {number} of {name} for {seconds} s: {publications} publications, {subscriptions} subscriptions, {counters} counters"
        )?;
        Answer::Line.put(line.as_bytes(), out)?;
        Ok(())
    }

    /// A line for each client.
    fn tell_guests(&self, out: &mut Vec<u8>) -> Result<(), DoorFault> {
        let now = ticks(&self.rt);
        let mut count = 0u32;
        for guest in self.guests.rows.iter() {
            self.tell_guest(guest, now, out)?;
            count = count.saturating_add(1);
        }
        Answer::Done { count }.put(&[], out)?;
        Ok(())
    }

    /// What an operator asks is answered.
    fn obey(&mut self, request: Request, out: &mut Vec<u8>) -> Result<(), DoorFault> {
        match request {
            Request::Stop => {
                self.stop = true;
                tell_lines(0, "", out)
            }
            Request::Status => self.tell_guests(out),
            _ => {
                let reason = Reason::UnknownRequest;
                refuse(reason.code(), reason.text(), out)
            }
        }
    }

    /// An operator asks once, and is answered. What whoever has the driver is asked is answered later.
    pub(crate) fn hear(&mut self, stream: UnixStream) -> Option<Heard> {
        let alloc = self.rt.alloc();
        let mut stream = Hurried::new(self.rt, stream);
        match request_of(alloc, &mut stream) {
            Some(Request::Reload) => {
                let Hurried { stream, .. } = stream;
                return Some(Heard::Reload(stream));
            }
            Some(Request::Decisions { from, choice }) => {
                let Hurried { stream, .. } = stream;
                return Some(Heard::Decisions(stream, from, choice));
            }
            Some(request) => {
                let mut out = Vec::new(alloc);
                let put = self.obey(request, &mut out);
                send(alloc, &mut stream, put, out.as_slice());
            }
            None => dismiss(alloc, &mut stream, Reason::UnknownRequest),
        }
        None
    }
}
