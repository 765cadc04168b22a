//! A connection over a stream of bytes.

ghost use Rattle.service_streams.specs.Acting.{Acts};
ghost use Rattle.service_streams.specs.Order.{AnswersFirst, AnswersInOrder, Ends, Proceeds, TakesLeave, bye_bytes, end_reason, stands, welcome_bytes};
ghost use Rattle.service_streams.specs.Streams.{AppendsFront, Drains, Flushes, Reads};
ghost use Rattle.std.specs.Prelude.{◌≡◌, ◌++◌, [], drop, IfOk, OnErr, OnOk};

use crate::long::{LONG, LongRecords, long_in};
use crate::writing::write_whole;
use driver_service::{Connection, Pauses, Reason, Seat};
use service_records::{Answer, first_record};
use std::alloc::{AllocError, Global};
use std::io::{ErrorKind, Read, Write};
use std::mem::swap;
use std::sync::Wait;
use std::time::Clock;

/// How many bytes are read at once, at most.
const CHUNK: usize = 131_072;

/// How many bytes of answers may stand before they are written.
const FULL: usize = 65_536;

/// Why a connection ended.
#[derive(Clone, Copy, Debug, PartialEq, Eq)]
pub enum Ended {
    /// Its other end closed it, is not there any more, or took nothing for too long.
    Closed,
    /// Nothing was heard for too long.
    Silent,
    /// A record was longer than records may be.
    TooLong,
    /// The client is gone, for that reason.
    Gone(Reason),
    /// The driver stops.
    Stopped,
    NoMemory,
}

/// What a client is told first.
#[derive(Clone, Copy, Debug)]
pub struct Greeting {
    pub principal: u32,
    pub client: u64,
    /// How long the client may be silent, in nanoseconds.
    pub liveness: u64,
}

/// What was read and not answered yet, from `at` on, and what is to be written.
#[derive(Drop)]
struct Buffers {
    alloc: Global,
    input: Vec<u8>,
    at: usize,
    /// Where what is left goes before more that comes. It and `input` change places, so that no bytes move within either.
    spare: Vec<u8>,
    chunk: Vec<u8>,
    /// The answer to one record, until all of it is there.
    answer: Vec<u8>,
    out: Vec<u8>,
    /// How many bytes the long record takes that has begun, for which there is memory; 0 where none has.
    long: u64,
}

/// The bytes from that place on.
fn rest_of(bytes: &[u8], at: usize) -> &[u8]
    ensures { result.now ≡ drop at bytes.now }
{
    if at >= bytes.len() {
        return &[];
    }
    bytes.split_at(at).1
}

/// A whole answer goes behind those that are to be written. Where there is no memory for it, nothing of it does.
fn put_behind(answer: &mut Vec<u8>, out: &mut Vec<u8>) -> Result<(), AllocError>
    ensures ok { OnOk result (out.new.items ≡ out.old.items ++ answer.old.items) }
    ensures err { OnErr result (out.new.items ≡ out.old.items) }
{
    if out.is_empty() {
        swap(out, answer);
        return Ok(());
    }
    out.extend_from_slice(answer.as_slice())
}

impl Buffers {
    fn new(alloc: Global) -> Result<Buffers, AllocError>
        ensures { IfOk result (λ buffers. (buffers.input.items ≡ []) × (buffers.at ≡ 0) × (buffers.out.items ≡ [])) }
    {
        Ok(Buffers {
            alloc,
            input: Vec::with_capacity(alloc, CHUNK)?,
            at: 0,
            spare: Vec::with_capacity(alloc, CHUNK)?,
            chunk: vec![in alloc; 0u8; CHUNK]?,
            answer: Vec::new(alloc),
            out: Vec::with_capacity(alloc, FULL)?,
            long: 0,
        })
    }

    /// Writes what is to be written.
    #[tactic(auto, using(crate::proofs::StreamLemmas::nothing_appended))]
    fn flush<T: Write>(&mut self, stream: &mut T) -> Result<(), Ended>
        ensures told { Flushes result (T.contents stream.old) (T.contents stream.new) self.old.out.items self.new.out.items }
        ensures left { drop self.new.at self.new.input.items ≡ drop self.old.at self.old.input.items }
    {
        if self.out.is_empty() {
            return Ok(());
        }
        let written = write_whole(stream, self.out.as_slice());
        self.out.clear();
        if written { Ok(()) } else { Err(Ended::Closed) }
    }

    /// Writes what is to be written, where it is much.
    fn flush_full<T: Write>(&mut self, stream: &mut T) -> Result<(), Ended>
        ensures told { Drains result (T.contents stream.old) (T.contents stream.new) self.old.out.items self.new.out.items }
        ensures left { drop self.new.at self.new.input.items ≡ drop self.old.at self.old.input.items }
    {
        if self.out.len() < FULL {
            return Ok(());
        }
        self.flush(stream)
    }

    /// What was answered is let go, and the room that a long record took.
    fn settle(&mut self) -> Result<(), AllocError>
        ensures left { OnOk result (self.new.input.items ≡ drop self.old.at self.old.input.items) }
        ensures front { OnOk result (self.new.at ≡ 0) }
        ensures out { self.new.out.items ≡ self.old.out.items }
    {
        if self.at == 0 {
            return Ok(());
        }
        self.spare.clear();
        let left = rest_of(self.input.as_slice(), self.at);
        self.spare.extend_from_slice(left)?;
        swap(&mut self.input, &mut self.spare);
        self.at = 0;
        if self.spare.capacity() > LONG {
            self.spare = Vec::new(self.alloc);
        }
        Ok(())
    }

    /// There is memory for a long record, as one has begun now. Whether there is; none is kept where the record before was long, and
    /// this one is not.
    fn keep_room<P: LongRecords>(&mut self, pauses: &mut P) -> bool
        ensures input { self.new.input.items ≡ self.old.input.items }
        ensures at { self.new.at ≡ self.old.at }
        ensures out { self.new.out.items ≡ self.old.out.items }
    {
        let left = rest_of(self.input.as_slice(), self.at);
        let (long, there) = (long_in(left), left.len());
        if long == self.long {
            return true;
        }
        if self.long > 0 {
            pauses.end_long();
        }
        self.long = long;
        if long == 0 {
            return true;
        }
        if !pauses.begin_long(long) {
            return false;
        }
        // One block of that size, so that it takes no more while it grows. Where there is none, the read finds that out.
        let _ = self
            .input
            .reserve_exact((long as usize).saturating_sub(there));
        true
    }

    /// What was answered is let go, and more is read, where there is memory for a long record.
    fn read<T: Read, P: LongRecords>(&mut self, stream: &mut T, pauses: &mut P) -> Result<(), Ended>
        ensures reads { Reads result (T.remaining stream.old) (T.remaining stream.new) (drop self.old.at self.old.input.items) (drop self.new.at self.new.input.items) }
        ensures out { self.new.out.items ≡ self.old.out.items }
    {
        if self.settle().is_err() {
            return Err(Ended::NoMemory);
        }
        if !self.keep_room(pauses) {
            return Err(Ended::Closed);
        }
        match stream.read(self.chunk.as_mut_slice()) {
            Ok(0) => Err(Ended::Closed),
            Ok(count) => {
                let (more, _) = self.chunk.as_slice().split_at(count);
                match self.input.extend_from_slice(more) {
                    Ok(()) => Ok(()),
                    Err(_) => Err(Ended::NoMemory),
                }
            }
            Err(error) if error.kind() == ErrorKind::Interrupted => Ok(()),
            Err(error) if error.kind() == ErrorKind::WouldBlock => Err(Ended::Silent),
            Err(_) => Err(Ended::Closed),
        }
    }

    /// Answers the first record that is there. Whether there was one. Where memory runs out, nothing of its answer is to be
    /// written.
    #[tactic(auto, using(crate::proofs::ActLemmas::no_acts))]
    fn answer_first<R: Clock + Wait, P: Pauses, S: Seat>(
        &mut self,
        rt: &R,
        pauses: &mut P,
        connection: &mut Connection<S>,
    ) -> Result<bool, Ended>
        ensures acts { Acts S.does connection.old.seat connection.new.seat }
        ensures first { AnswersFirst S.does result (stands connection.old.seat connection.old.refusals self.old) (stands connection.new.seat connection.new.refusals self.new) }
    {
        let left = rest_of(self.input.as_slice(), self.at);
        match first_record(left) {
            Err(_) => Err(Ended::TooLong),
            Ok(None) => Ok(false),
            Ok(Some(cut)) => {
                let rest = cut.rest.len();
                self.answer.clear();
                if connection
                    .answer_record(rt, pauses, cut.record, &mut self.answer)
                    .is_err()
                {
                    return Err(Ended::NoMemory);
                }
                if put_behind(&mut self.answer, &mut self.out).is_err() {
                    return Err(Ended::NoMemory);
                }
                self.at = self.input.len().saturating_sub(rest);
                Ok(true)
            }
        }
    }
}

/// Answers all records that are there, and writes the answers.
fn answer_all<R: Clock + Wait, P: Pauses, S: Seat, T: Read + Write>(
    rt: &R,
    stream: &mut T,
    pauses: &mut P,
    connection: &mut Connection<S>,
    buffers: &mut Buffers,
) -> Result<(), Ended>
    ensures acts { Acts S.does connection.old.seat connection.new.seat }
    ensures order { Proceeds S.does T.remaining T.contents result (stands connection.old.seat connection.old.refusals buffers.old) stream.old (stands connection.new.seat connection.new.refusals buffers.new) stream.new }
{
    for _ in rt.forever() {
        match buffers.answer_first(rt, pauses, connection) {
            Ok(true) => {}
            Ok(false) => return buffers.flush(stream),
            Err(ended) => return Err(ended),
        }
        if let Err(ended) = buffers.flush_full(stream) {
            return Err(ended);
        }
        if let Some(reason) = connection.gone() {
            return Err(Ended::Gone(reason));
        }
        if pauses.is_stopping() {
            return Err(Ended::Stopped);
        }
    }
    unreachable!()
}

/// What the one at the other end is told of an end, where anything is.
fn reason_of(ended: Ended) -> Option<Reason>
    ensures { result ≡ end_reason ended }
{
    match ended {
        Ended::Closed => None,
        Ended::Silent => Some(Reason::WrongClient),
        Ended::Gone(reason) => Some(reason),
        Ended::Stopped => Some(Reason::Stopped),
        Ended::TooLong => Some(Reason::TooLong),
        Ended::NoMemory => Some(Reason::NoMemory),
    }
}

/// Says that a connection ends, and why: it writes BYE with that reason, as far as the stream takes it. Where there is no memory
/// for that record, it writes nothing.
pub fn dismiss<T: Write>(alloc: Global, stream: &mut T, reason: Reason)
    ensures { AppendsFront (T.contents stream.old) (T.contents stream.new) (bye_bytes reason) }
{
    let mut out = Vec::new(alloc);
    let code = reason.code();
    let bye = Answer::Bye { code };
    if bye.put(reason.text().as_bytes(), &mut out).is_ok() {
        let _ = write_whole(stream, out.as_slice());
    }
}

fn greet(out: &mut Vec<u8>, greeting: Greeting) -> Result<(), AllocError>
    ensures { OnOk result (out.new.items ≡ out.old.items ++ welcome_bytes greeting) }
{
    let Greeting {
        principal,
        client,
        liveness,
    } = greeting;
    Answer::Welcome {
        version: 1,
        principal,
        client,
        liveness,
    }
    .put(&[], out)
}

/// Answers the records of a stream until it ends.
fn talk_on<R: Clock + Wait, P: Pauses + LongRecords, S: Seat, T: Read + Write>(
    rt: &R,
    stream: &mut T,
    pauses: &mut P,
    connection: &mut Connection<S>,
    buffers: &mut Buffers,
) -> Ended
    ensures acts { Acts S.does connection.old.seat connection.new.seat }
    ensures order { Ends S.does T.remaining T.contents result (stands connection.old.seat connection.old.refusals buffers.old) stream.old (stands connection.new.seat connection.new.refusals buffers.new) stream.new }
{
    for _ in rt.forever() {
        if let Err(ended) = answer_all(rt, stream, pauses, connection, buffers) {
            return ended;
        }
        if let Err(ended) = buffers.read(stream, pauses) {
            if pauses.is_stopping() {
                return Ended::Stopped;
            }
            return ended;
        }
    }
    unreachable!()
}

/// Says why a conversation ended, after all that was answered: the end that it came to.
fn take_leave<T: Write>(alloc: Global, stream: &mut T, buffers: &mut Buffers, ended: Ended) -> Ended
    ensures { TakesLeave T.contents ended result stream.old stream.new buffers.old.out.items }
{
    let Some(reason) = reason_of(ended) else {
        return ended;
    };
    if let Err(closed) = buffers.flush(stream) {
        return closed;
    }
    dismiss(alloc, stream, reason);
    ended
}

/// Greets, and answers the records of a stream until it ends. Whatever comes, each record that it acts on makes the calls that it
/// names, and nothing else is done for the client. The records are answered in their order, each once. Where the connection ends
/// it, it says why, after all that was answered; a record for whose answer there is no memory is answered by nothing else. Where
/// the stream takes no more, it is [`Ended::Closed`], whatever else ended it.
#[tactic(auto, using(crate::proofs::ActLemmas::no_acts, crate::proofs::OrderLemmas::nothing_said))]
pub fn talk<R: Clock + Wait, P: Pauses + LongRecords, S: Seat, T: Read + Write>(
    rt: &R,
    alloc: Global,
    stream: &mut T,
    pauses: &mut P,
    connection: &mut Connection<S>,
    greeting: Greeting,
) -> Ended
    ensures acts { Acts S.does connection.old.seat connection.new.seat }
    ensures order { AnswersInOrder S.does T.remaining T.contents greeting result (connection.old.seat, connection.old.refusals) (connection.new.seat, connection.new.refusals) stream.old stream.new }
{
    let Ok(mut buffers) = Buffers::new(alloc) else {
        return Ended::NoMemory;
    };
    if greet(&mut buffers.out, greeting).is_err() {
        return Ended::NoMemory;
    }
    let ended = talk_on(rt, stream, pauses, connection, &mut buffers);
    take_leave(alloc, stream, &mut buffers, ended)
}
