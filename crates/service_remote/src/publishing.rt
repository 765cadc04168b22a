//! `publish --driver`: standard input goes to a driver that serves, as messages.

use crate::fault::RemoteFault;
use crate::remote::Remote;
use command_codec::{AddPublication, Body};
use piped_messages::Cut;
use program_parts::{Disk, Input, Machine, SECOND, ticks};
use service_records::{Answer, Request};
use std::alloc::Global;
use std::mem::swap;

/// How many messages go at once, at most. So many more go before the answers to these are read: they take less than the 64 KiB
/// of answers for which a driver waits.
const BATCH: usize = 512;

/// How many bytes go at once, at most, but for one long message.
const BYTES: usize = 262_144;

/// How long a message may wait in the driver, in milliseconds.
const WAIT: u32 = 500;

/// What is published, and how long is waited.
#[derive(Clone, Copy)]
pub struct Offering<'a> {
    pub channel: &'a str,
    pub stream: i32,
    pub by: Cut,
    /// How long a message may wait until the log takes it, in nanoseconds.
    pub wait: u64,
}

/// Messages that are not taken yet.
#[derive(Drop)]
struct Batch {
    bytes: Vec<u8>,
    /// Where each of them ends.
    ends: Vec<usize>,
    /// How many of them are taken.
    taken: usize,
}

impl Batch {
    fn new(alloc: Global) -> Batch {
        Batch {
            bytes: Vec::new(alloc),
            ends: Vec::new(alloc),
            taken: 0,
        }
    }

    fn is_done(&self) -> bool {
        self.taken >= self.ends.len()
    }

    fn clear(&mut self) {
        self.bytes.clear();
        self.ends.clear();
        self.taken = 0;
    }

    fn message(&self, place: usize) -> &[u8] {
        let from = match place.checked_sub(1) {
            Some(before) => self.ends.get(before).copied().unwrap_or(0),
            None => 0,
        };
        let to = self.ends.get(place).copied().unwrap_or(0);
        self.bytes.get(from..to).unwrap_or(&[])
    }

    fn is_full(&self) -> bool {
        self.ends.len() >= BATCH || self.bytes.len() >= BYTES
    }

    /// Takes the next messages that were read.
    fn take(&mut self, input: &mut Input) -> Result<(), RemoteFault> {
        for _messages in 0..BATCH {
            if self.is_full() {
                return Ok(());
            }
            let Some((message, rest)) = input.message() else {
                return Ok(());
            };
            self.bytes.extend_from_slice(message)?;
            self.ends.push(self.bytes.len())?;
            input.pass(rest);
        }
        Ok(())
    }

    /// Takes messages of the input until it is full, or no more is there.
    fn fill(&mut self, input: &mut Input) -> Result<(), RemoteFault> {
        for _chunks in 0..BATCH {
            self.take(input)?;
            if self.is_full() || !input.take()? {
                return Ok(());
            }
        }
        Ok(())
    }
}

/// What was sent so far.
#[derive(Clone, Copy)]
struct Gone {
    registration: u64,
    messages: u64,
    bytes: u64,
    position: u64,
    refusals: u32,
}

impl Gone {
    fn new(registration: u64) -> Gone {
        Gone {
            registration,
            messages: 0,
            bytes: 0,
            position: 0,
            refusals: 0,
        }
    }

    /// A message was taken.
    fn note(&mut self, position: u64, length: usize) {
        self.messages = self.messages.saturating_add(1);
        self.bytes = self.bytes.saturating_add(length as u64);
        self.position = position;
    }
}

/// Why a message was not taken: the code, and the driver's words.
#[derive(Clone, Copy)]
struct Refused {
    code: i32,
    fault: RemoteFault,
}

/// Whether a refusal of that code may pass.
fn may_pass(code: i32) -> bool {
    matches!(code, -1 | -2 | -6 | 1007 | 1008)
}

/// Offers what is left of a batch.
fn ask_batch(remote: &mut Remote, batch: &Batch, gone: &Gone) -> Result<(), RemoteFault> {
    for place in batch.taken..batch.ends.len() {
        let offer = Request::Offer {
            seen: gone.refusals,
            wait: WAIT,
            registration: gone.registration,
        };
        remote.ask(offer, batch.message(place))?;
    }
    remote.flush()
}

/// Takes the answers to that. The refusal that ended it, if there was one.
fn take_answers(
    remote: &mut Remote,
    batch: &mut Batch,
    gone: &mut Gone,
) -> Result<Option<Refused>, RemoteFault> {
    let mut refused = None;
    for place in batch.taken..batch.ends.len() {
        match remote.answer()? {
            Answer::Taken { position } => {
                gone.note(position, batch.message(place).len());
                batch.taken = place.saturating_add(1);
            }
            Answer::Refused { code: -6 } => {}
            Answer::Refused { code } => {
                gone.refusals = gone.refusals.wrapping_add(1);
                let fault = remote.refusal();
                refused = Some(Refused { code, fault });
            }
            _ => return Err(RemoteFault::Protocol),
        }
    }
    Ok(refused)
}

/// Offers all of a batch. Between two messages that are taken it waits for so long at most.
fn offer_all<R: Machine>(
    rt: &R,
    remote: &mut Remote,
    batch: &mut Batch,
    gone: &mut Gone,
    wait: u64,
) -> Result<(), RemoteFault> {
    let mut since = ticks(rt);
    for _ in rt.forever() {
        let before = batch.taken;
        ask_batch(remote, batch, gone)?;
        let Some(refused) = take_answers(remote, batch, gone)? else {
            return Ok(());
        };
        let now = ticks(rt);
        if batch.taken != before {
            since = now;
        }
        if !may_pass(refused.code) || now.saturating_sub(since) > wait {
            return Err(refused.fault);
        }
    }
    unreachable!()
}

/// A publisher that has nothing to send says that it is there, once a second.
fn stay(remote: &mut Remote, heard: &mut u64, now: u64) -> Result<(), RemoteFault> {
    if now.saturating_sub(*heard) > SECOND {
        *heard = now;
        remote.command(Body::ClientKeepalive)?;
    }
    Ok(())
}

/// The answers to a batch are taken, behind which another one was offered. Where a message of it was refused, all after that were
/// skipped, those of the other one too, and are offered again.
fn settle<R: Machine>(
    rt: &R,
    remote: &mut Remote,
    asked: &mut Batch,
    next: &mut Batch,
    gone: &mut Gone,
    wait: u64,
) -> Result<(), RemoteFault> {
    let Some(refused) = take_answers(remote, asked, gone)? else {
        return Ok(());
    };
    let _ = take_answers(remote, next, gone)?;
    if !may_pass(refused.code) {
        return Err(refused.fault);
    }
    offer_all(rt, remote, asked, gone, wait)?;
    ask_batch(remote, next, gone)
}

/// Standard input goes to the driver, up to its end: a batch is offered before the answers to the one before it are read.
fn send_on<R: Machine>(
    rt: &R,
    remote: &mut Remote,
    input: &mut Input,
    gone: &mut Gone,
    wait: u64,
) -> Result<(), RemoteFault> {
    let mut asked = Batch::new(rt.alloc());
    let mut next = Batch::new(rt.alloc());
    let mut idle = 0u32;
    let mut heard = ticks(rt);
    for _ in rt.forever() {
        next.clear();
        next.fill(input)?;
        ask_batch(remote, &next, gone)?;
        settle(rt, remote, &mut asked, &mut next, gone, wait)?;
        swap(&mut asked, &mut next);
        if !asked.is_done() {
            idle = 0;
            heard = ticks(rt);
        } else if input.has_ended() {
            return Ok(());
        } else {
            input.pause(rt, idle);
            idle = idle.saturating_add(1);
            stay(remote, &mut heard, ticks(rt))?;
        }
    }
    unreachable!()
}

/// The registration of a new publication.
fn publication(remote: &mut Remote, asked: &Offering<'_>) -> Result<u64, RemoteFault> {
    let channel = remote.text(asked.channel)?;
    let correlation = remote.command(Body::AddPublication(AddPublication {
        stream: asked.stream,
        channel,
    }))?;
    let mut others = Vec::new(remote.alloc);
    remote.registered(correlation, &mut others)
}

/// Says how much was sent.
fn print_sent<R: Eprint>(rt: &R, gone: &Gone) {
    let Gone {
        registration: _,
        messages,
        bytes,
        position,
        refusals,
    } = *gone;
    let _ = eprintln!(rt;
        "sent {messages} messages {bytes} bytes position {position} refusals {refusals}"
    );
}

/// Publishes standard input by a driver that serves. How many messages went is printed, whatever came of the next one.
pub fn publish<R: Machine, F: Disk>(
    rt: &R,
    files: &F,
    path: &str,
    asked: &Offering<'_>,
) -> Result<(), RemoteFault> {
    let mut remote = Remote::open(files, path)?;
    remote.enter()?;
    let mut gone = Gone::new(publication(&mut remote, asked)?);
    let mut input = Input::open(*rt, asked.by)?;
    let sent = send_on(rt, &mut remote, &mut input, &mut gone, asked.wait);
    print_sent(rt, &gone);
    sent
}
