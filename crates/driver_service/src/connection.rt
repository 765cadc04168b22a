//! What a request does, and what it is answered.

ghost use Rattle.driver_service.specs.Calls.{Call, CallsOnly};
ghost use Rattle.driver_service.specs.Requests.{DoesRecord, Finishes, IsAllowed, IsCommand, IsImage, IsLook, IsOffer, IsPublication, IsValue};
ghost use Rattle.driver_service.specs.Answering.{Answers, AnswersOne, AnswersRecord, EndsIn, GivesMail, IsAnswered, Offers, PollsOne, TakesMail, done_bytes, fault_reason, refused_bytes, value_bytes};
ghost use Rattle.driver_service.specs.Calls.{Offer};
ghost use Rattle.service_records.specs.Request.{request_of};
ghost use Rattle.std.specs.Prelude.{◌≡◌, ◌++◌, List, OnOk};

use crate::gathering::gather;
use crate::positions::{tell_image, tell_publication};
use crate::reason::{Reason, Refusal};
use crate::rounds::answer_rounds;
use crate::seat::{Pauses, Seat};
use crate::waiting::Waiting;
use service_records::{Answer, RecordFault, Request};
use std::alloc::AllocError;
use std::sync::Wait;
use std::time::Clock;

/// How many replies are given at once, at most.
const REPLIES: u32 = 256;

/// A connection with the client that it acts by, and with no other.
#[derive(Drop)]
pub struct Connection<S: Seat> {
    seat: S,
    /// How many of its offers were refused so far, by 2^32.
    refusals: u32,
}

/// A request is refused.
pub(crate) fn refuse(refusal: &Refusal, out: &mut Vec<u8>) -> Result<(), AllocError>
    ensures { OnOk result (out.new.items ≡ out.old.items ++ refused_bytes refusal.now) }
{
    let code = refusal.code();
    Answer::Refused { code }.put(refusal.text().as_bytes(), out)
}

/// So many records answer a request, or it is refused.
fn done(counted: &Result<u32, Refusal>, out: &mut Vec<u8>) -> Result<(), AllocError>
    ensures { OnOk result (out.new.items ≡ out.old.items ++ done_bytes counted.now) }
{
    match counted {
        Ok(count) => Answer::Done { count: *count }.put(&[], out),
        Err(refusal) => refuse(refusal, out),
    }
}

/// The value of a counter, or it is refused.
fn tell_value(given: &Result<i64, Refusal>, out: &mut Vec<u8>) -> Result<(), AllocError>
    ensures { OnOk result (out.new.items ≡ out.old.items ++ value_bytes given.now) }
{
    match given {
        Ok(value) => Answer::Value { value: *value }.put(&[], out),
        Err(refusal) => refuse(refusal, out),
    }
}

/// Why a record is refused that is no request.
fn reason_of(fault: RecordFault) -> Reason
    ensures { result ≡ fault_reason fault }
{
    match fault {
        RecordFault::Unknown => Reason::UnknownRequest,
        RecordFault::Malformed => Reason::MalformedRequest,
        RecordFault::TooLong => Reason::TooLong,
    }
}

/// Whether the same offer would be answered so again.
fn is_final(told: &Result<u64, Refusal>) -> bool
    ensures { Finishes result told.now }
{
    match told {
        Ok(_) => true,
        Err(refusal) => !refusal.may_pass(),
    }
}

/// Whether it is to be made again at once.
fn is_at_once(told: &Result<u64, Refusal>) -> bool {
    matches!(told, Err(Refusal::Because(Reason::AdminAction)))
}

impl<S: Seat> Connection<S> {
    /// A connection of that client, of whose offers none was refused yet.
    pub fn new(seat: S) -> Connection<S>
        ensures seat { result.seat ≡ seat }
        ensures refusals { result.refusals ≡ 0 }
    {
        Connection { seat, refusals: 0 }
    }

    /// Its client.
    pub fn into_seat(self) -> S
    where
        S: Drop,
        ensures { result ≡ self.seat }
    {
        let Connection { seat, refusals: _ } = self;
        seat
    }

    /// Why the client is gone, where it is.
    pub fn gone(&self) -> Option<Reason> {
        self.seat.gone()
    }

    /// A message is offered, again until it is taken or the wait is over.
    fn offered<R: Clock + Wait, P: Pauses>(
        &mut self,
        rt: &R,
        pauses: &mut P,
        registration: u64,
        message: &[u8],
        wait: u32,
    ) -> Result<u64, Refusal>
        ensures ends { EndsIn S.does (IsOffer registration message.now) self.old.seat self.new.seat (Offer registration message.now result) }
        ensures refusals { self.new.refusals ≡ self.old.refusals }
    {
        let mut waiting = Waiting::for_room(wait);
        for _ in rt.forever() {
            let told = self.seat.offer(registration, message);
            if is_final(&told) {
                return told;
            }
            if !is_at_once(&told) && waiting.is_over(rt, pauses) {
                return told;
            }
        }
        unreachable!()
    }

    /// An offer is answered. One that was sent before the client saw the last refusal is skipped, so that no message overtakes
    /// another.
    #[tactic(auto, using(crate::proofs::CallLemmas::no_calls))]
    fn offer<R: Clock + Wait, P: Pauses>(
        &mut self,
        rt: &R,
        pauses: &mut P,
        registration: u64,
        message: &[u8],
        seen: u32,
        wait: u32,
        out: &mut Vec<u8>,
    ) -> Result<(), AllocError>
        ensures { Offers S.does registration message.now seen self.old.refusals self.new.refusals self.old.seat self.new.seat out.old.items out.new.items result }
    {
        if seen != self.refusals {
            return refuse(&Refusal::Because(Reason::Skipped), out);
        }
        match self.offered(rt, pauses, registration, message, wait) {
            Ok(position) => Answer::Taken { position }.put(&[], out),
            Err(refusal) => {
                self.refusals = self.refusals.wrapping_add(1);
                refuse(&refusal, out)
            }
        }
    }

    /// A log is polled, again until something came or the wait is over.
    fn poll<R: Clock + Wait, P: Pauses>(
        &mut self,
        rt: &R,
        pauses: &mut P,
        subscription: u64,
        source: u64,
        limit: u32,
        wait: u32,
        out: &mut Vec<u8>,
    ) -> Result<u32, Refusal>
        ensures polls { PollsOne S.does subscription source limit self.old.seat self.new.seat out.old.items out.new.items result }
        ensures refusals { self.new.refusals ≡ self.old.refusals }
    {
        let mut waiting = Waiting::new(wait);
        for _ in rt.forever() {
            let polled = gather(&mut self.seat, subscription, source, limit, out);
            match polled {
                Ok(0) => {
                    if waiting.is_over(rt, pauses) {
                        return Ok(0);
                    }
                }
                other => return other,
            }
        }
        unreachable!()
    }

    /// A poll is answered.
    fn answer_poll<R: Clock + Wait, P: Pauses>(
        &mut self,
        rt: &R,
        pauses: &mut P,
        subscription: u64,
        source: u64,
        limit: u32,
        wait: u32,
        out: &mut Vec<u8>,
    ) -> Result<(), AllocError>
        ensures answers { AnswersOne S.does subscription source limit self.old.seat self.new.seat out.old.items out.new.items result }
        ensures refusals { self.new.refusals ≡ self.old.refusals }
    {
        let polled = self.poll(rt, pauses, subscription, source, limit, wait, out);
        done(&polled, out)
    }

    /// The replies that are there.
    fn replies(&mut self, out: &mut Vec<u8>) -> Result<u32, Refusal>
        ensures takes { TakesMail S.does self.old.seat self.new.seat out.old.items out.new.items result }
        ensures refusals { self.new.refusals ≡ self.old.refusals }
    {
        for count in 0..REPLIES {
            match self.seat.mail(out) {
                Ok(true) => {}
                Ok(false) => return Ok(count),
                Err(refusal) => return Err(refusal),
            }
        }
        Ok(REPLIES)
    }

    /// The replies are taken, again until there are any or the wait is over.
    fn mail<R: Clock + Wait, P: Pauses>(
        &mut self,
        rt: &R,
        pauses: &mut P,
        wait: u32,
        out: &mut Vec<u8>,
    ) -> Result<u32, Refusal>
        ensures gives { GivesMail S.does self.old.seat self.new.seat out.old.items out.new.items result }
        ensures refusals { self.new.refusals ≡ self.old.refusals }
    {
        let mut waiting = Waiting::new(wait);
        for _ in rt.forever() {
            let replied = self.replies(out);
            match replied {
                Ok(0) => {
                    if waiting.is_over(rt, pauses) {
                        return Ok(0);
                    }
                }
                other => return other,
            }
        }
        unreachable!()
    }

    fn list(&mut self, out: &mut Vec<u8>) -> Result<(), AllocError>
        ensures answers { Answers S.does IsLook self.old.seat self.new.seat out.old.items out.new.items result }
        ensures refusals { self.new.refusals ≡ self.old.refusals }
    {
        let listed = self.seat.list(out);
        done(&listed, out)
    }

    fn value(&mut self, number: u64, out: &mut Vec<u8>) -> Result<(), AllocError>
        ensures answers { Answers S.does (IsValue number) self.old.seat self.new.seat out.old.items out.new.items result }
        ensures refusals { self.new.refusals ≡ self.old.refusals }
    {
        let given = self.seat.value(number);
        tell_value(&given, out)
    }

    fn publication_positions(
        &mut self,
        registration: u64,
        out: &mut Vec<u8>,
    ) -> Result<(), AllocError>
        ensures answers { Answers S.does (IsPublication registration) self.old.seat self.new.seat out.old.items out.new.items result }
        ensures refusals { self.new.refusals ≡ self.old.refusals }
    {
        let given = self.seat.publication_positions(registration);
        tell_publication(&given, out)
    }

    fn image_positions(
        &mut self,
        subscription: u64,
        source: u64,
        out: &mut Vec<u8>,
    ) -> Result<(), AllocError>
        ensures answers { Answers S.does (IsImage subscription source) self.old.seat self.new.seat out.old.items out.new.items result }
        ensures refusals { self.new.refusals ≡ self.old.refusals }
    {
        let given = self.seat.image_positions(subscription, source);
        tell_image(&given, out)
    }

    fn command(&mut self, bytes: &[u8], out: &mut Vec<u8>) -> Result<(), AllocError>
        ensures answers { Answers S.does (IsCommand bytes.now) self.old.seat self.new.seat out.old.items out.new.items result }
        ensures refusals { self.new.refusals ≡ self.old.refusals }
    {
        match self.seat.command(bytes) {
            Ok(()) => done(&Ok(0), out),
            Err(refusal) => refuse(&refusal, out),
        }
    }

    /// What a request does: one call of the client, or the same one again while it waits; a poll may be several, until much is to
    /// be written. The answer stands at the end of `out`: records of what came, and one that closes it.
    pub fn answer<R: Clock + Wait, P: Pauses>(
        &mut self,
        rt: &R,
        pauses: &mut P,
        request: Request,
        tail: &[u8],
        out: &mut Vec<u8>,
    ) -> Result<(), AllocError>
        ensures calls { CallsOnly S.does (IsAllowed request tail.now) self.old.seat self.new.seat }
        ensures answered { IsAnswered S.does request tail.now self.old.refusals self.new.refusals self.old.seat self.new.seat out.old.items out.new.items result }
    {
        self.seat.stay();
        match request {
            Request::Command => self.command(tail, out),
            Request::Offer {
                seen,
                wait,
                registration,
            } => self.offer(rt, pauses, registration, tail, seen, wait, out),
            Request::Poll {
                limit,
                wait,
                subscription,
                source,
            } => self.answer_poll(rt, pauses, subscription, source, limit, wait, out),
            Request::Mail { wait } => {
                let taken = self.mail(rt, pauses, wait, out);
                done(&taken, out)
            }
            Request::List => self.list(out),
            Request::Value { number } => self.value(number, out),
            Request::Stop => refuse(&Refusal::Because(Reason::NotOperator), out),
            Request::Reload => refuse(&Refusal::Because(Reason::NotOperator), out),
            Request::Status => refuse(&Refusal::Because(Reason::NotOperator), out),
            Request::Decisions { .. } => refuse(&Refusal::Because(Reason::NotOperator), out),
            Request::PollAll { limit, wait } => {
                answer_rounds(rt, pauses, &mut self.seat, tail, limit, wait, out)
            }
            Request::PublicationPositions { registration } => {
                self.publication_positions(registration, out)
            }
            Request::ImagePositions {
                subscription,
                source,
            } => self.image_positions(subscription, source, out),
        }
    }

    /// What a record does: that of the request that it is, or nothing.
    #[tactic(auto, using(crate::proofs::CallLemmas::no_calls))]
    pub fn answer_record<R: Clock + Wait, P: Pauses>(
        &mut self,
        rt: &R,
        pauses: &mut P,
        bytes: &[u8],
        out: &mut Vec<u8>,
    ) -> Result<(), AllocError>
        ensures calls { DoesRecord S.does bytes.now self.old.seat self.new.seat }
        ensures answered { AnswersRecord S.does (request_of bytes.now) self.old.refusals self.new.refusals self.old.seat self.new.seat out.old.items out.new.items result }
    {
        match Request::read(bytes) {
            Ok((request, tail)) => self.answer(rt, pauses, request, tail, out),
            Err(fault) => refuse(&Refusal::Because(reason_of(fault)), out),
        }
    }
}
