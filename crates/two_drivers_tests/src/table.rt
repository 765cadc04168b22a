//! Datagrams that are lost, come twice and in another order: each answer, byte for byte.

use crate::deeds::{Deed, Doing, PUBLISH, STATUS, SUBSCRIBE, TERMINATE, step_of};
use crate::opening::fresh_worlds;
use byte_strings::Items;
use driver_core::{Address, Message, Outlet};
use driver_world::{Answer, FragmentCopies, Insert, Offered};
use std::alloc::{AllocError, Global};
use two_drivers::PairStep;

/// A fragment of one byte: the position after it, and the byte. It is a whole message.
type Whole = (u64, u8);

/// What a step is answered.
#[derive(Clone, Copy)]
enum Expected {
    /// Client 1 is attached.
    Attached,
    /// This one reply goes to client 1.
    Reply(&'static [u8]),
    /// This one datagram goes to the endpoint of the publication.
    Sent(&'static [u8]),
    /// The publication may be sent up to this position.
    Limited(u64),
    /// A message is appended, and this is the position after it.
    Appended(u64),
    /// A message is not appended, since nobody reads.
    NotConnected,
    /// An image comes, under source number 2, and this one reply goes to client 1.
    Imaged(&'static [u8]),
    /// One frame came.
    Frame(Insert),
    Polled(&'static [Whole]),
    /// No step.
    Bad,
}

fn is_to_first(messages: &[Message], alloc: Global, bytes: &[u8]) -> bool {
    let Some(message) = messages.get(0) else {
        return false;
    };
    match message.reply.bytes(alloc) {
        Ok(reply) => { (messages.len() == 1) & (message.client == 1) & (reply.as_slice() == bytes) }
        Err(_) => false,
    }
}

fn is_endpoint(address: &Address) -> bool {
    (address.octets == [127, 0, 0, 1]) & (address.port == 40_123)
}

/// Whether one destination is named, the endpoint of the publication, and it may go there.
fn is_allowed(outlets: &[Outlet]) -> bool {
    match outlets.get(0) {
        Some(outlet) => {
            (outlets.len() == 1) & is_endpoint(&outlet.to) & outlet.decision.verdict.allow
        }
        None => false,
    }
}

/// Whether exactly these were polled, each with the flags of a whole message.
fn are_polled(copies: &FragmentCopies, wanted: &[Whole]) -> bool {
    let mut at = 0usize;
    for fragment in copies.iter() {
        let Some(&(position, byte)) = wanted.get(at) else {
            return false;
        };
        if (fragment.position != position)
            | (fragment.flags.bits != 0xc0)
            | (fragment.payload != [byte].as_slice())
        {
            return false;
        }
        at = at.wrapping_add(1);
    }
    at == wanted.len()
}

fn is_attached(answer: &Answer) -> bool {
    match answer {
        Answer::Attached { client, .. } => *client == 1,
        _ => false,
    }
}

fn is_reply(alloc: Global, answer: &Answer, bytes: &[u8]) -> bool {
    match answer {
        Answer::Replies(messages) => is_to_first(messages.as_slice(), alloc, bytes),
        _ => false,
    }
}

fn is_sent(answer: &Answer, wanted: &[u8]) -> bool {
    match answer {
        Answer::Sent { bytes, outlets } => {
            (bytes.as_slice() == wanted) & is_allowed(outlets.as_slice())
        }
        _ => false,
    }
}

fn is_limited(answer: &Answer, wanted: u64) -> bool {
    match answer {
        Answer::Limited(position) => *position == wanted,
        _ => false,
    }
}

fn is_appended(answer: &Answer, wanted: u64) -> bool {
    match answer {
        Answer::Offered(Offered::At(position)) => *position == wanted,
        _ => false,
    }
}

fn is_not_connected(answer: &Answer) -> bool {
    matches!(answer, Answer::Offered(Offered::NotConnected))
}

fn is_imaged(alloc: Global, answer: &Answer, bytes: &[u8]) -> bool {
    match answer {
        Answer::Imaged { source, replies } => {
            (*source == 2) & is_to_first(replies.as_slice(), alloc, bytes)
        }
        _ => false,
    }
}

fn is_frame(answer: &Answer, word: Insert) -> bool {
    match answer {
        Answer::Received(words) => words.as_slice() == [word].as_slice(),
        _ => false,
    }
}

fn is_polled(answer: &Answer, wanted: &[Whole]) -> bool {
    match answer {
        Answer::Polled(copies) => are_polled(copies, wanted),
        _ => false,
    }
}

fn is_as(alloc: Global, answer: &Answer, expected: Expected) -> bool {
    match expected {
        Expected::Attached => is_attached(answer),
        Expected::Reply(bytes) => is_reply(alloc, answer, bytes),
        Expected::Sent(bytes) => is_sent(answer, bytes),
        Expected::Limited(position) => is_limited(answer, position),
        Expected::Appended(position) => is_appended(answer, position),
        Expected::NotConnected => is_not_connected(answer),
        Expected::Imaged(bytes) => is_imaged(alloc, answer, bytes),
        Expected::Frame(word) => is_frame(answer, word),
        Expected::Polled(wanted) => is_polled(answer, wanted),
        Expected::Bad => matches!(answer, Answer::BadStep),
    }
}

/// What is done, and what it is answered.
type Row = (Doing, Expected);

/// ON_ERROR for the command of correlation 11: 1001, `denied by rule 1 in policy 1`.
const DENIED: Expected = Expected::Reply(
    b"\x01\x0f\0\0\x0b\0\0\0\0\0\0\0\xe9\x03\0\0\x1c\0\0\0denied by rule 1 in policy 1",
);

/// What the six datagrams of data hold: a frame of 33 bytes, with the flags of a whole message, at an offset of term 0 of session
/// 1 and stream 10, and filled up to 64.
const FRAME_1: &[u8] =
    b"\x21\0\0\0\0\xc0\x01\0\0\0\0\0\x01\0\0\0\x0a\0\0\0\0\0\0\0\0\0\0\0\0\0\0\0\x61\0\0\0\0\0\0\0\0\0\0\0\0\0\0\0\0\0\0\0\0\0\0\0\0\0\0\0\0\0\0\0";

const FRAME_2: &[u8] =
    b"\x21\0\0\0\0\xc0\x01\0\x40\0\0\0\x01\0\0\0\x0a\0\0\0\0\0\0\0\0\0\0\0\0\0\0\0\x62\0\0\0\0\0\0\0\0\0\0\0\0\0\0\0\0\0\0\0\0\0\0\0\0\0\0\0\0\0\0\0";

const FRAME_3: &[u8] =
    b"\x21\0\0\0\0\xc0\x01\0\x80\0\0\0\x01\0\0\0\x0a\0\0\0\0\0\0\0\0\0\0\0\0\0\0\0\x63\0\0\0\0\0\0\0\0\0\0\0\0\0\0\0\0\0\0\0\0\0\0\0\0\0\0\0\0\0\0\0";

const FRAME_4: &[u8] =
    b"\x21\0\0\0\0\xc0\x01\0\xc0\0\0\0\x01\0\0\0\x0a\0\0\0\0\0\0\0\0\0\0\0\0\0\0\0\x64\0\0\0\0\0\0\0\0\0\0\0\0\0\0\0\0\0\0\0\0\0\0\0\0\0\0\0\0\0\0\0";

const FRAME_5: &[u8] =
    b"\x21\0\0\0\0\xc0\x01\0\0\x01\0\0\x01\0\0\0\x0a\0\0\0\0\0\0\0\0\0\0\0\0\0\0\0\x65\0\0\0\0\0\0\0\0\0\0\0\0\0\0\0\0\0\0\0\0\0\0\0\0\0\0\0\0\0\0\0";

const FRAME_6: &[u8] =
    b"\x21\0\0\0\0\xc0\x01\0\x40\x01\0\0\x01\0\0\0\x0a\0\0\0\0\0\0\0\0\0\0\0\0\0\0\0\x66\0\0\0\0\0\0\0\0\0\0\0\0\0\0\0\0\0\0\0\0\0\0\0\0\0\0\0\0\0\0\0";

/// Both worlds have a client; the first has a publication, and the second a subscription. The first sends its SETUP and, after a
/// status message, six frames in as many datagrams. Of these the second is given the SETUP, then 1, 3, 3, 2 and 6, and later 5 and
/// 4: it polls 1, 2 and 3, and then 4, 5 and 6. What is denied between changes nothing; nor does a datagram that was not sent, or
/// one that the second would take by itself.
static ROWS: [Row; 35] = [
    (Doing::A(Deed::Attach), Expected::Attached),
    (
        Doing::A(PUBLISH),
        Expected::Reply(b"\x03\x0f\0\0\x0b\0\0\0\0\0\0\0\x01\0\0\0\0\0\0\0\x01\0\0\0\x0a\0\0\0"),
    ),
    (Doing::B(Deed::Attach), Expected::Attached),
    (
        Doing::B(SUBSCRIBE),
        Expected::Reply(b"\x07\x0f\0\0\x0b\0\0\0\0\0\0\0\x01\0\0\0\0\0\0\0"),
    ),
    (Doing::Deliver(0), Expected::Bad),
    (
        Doing::A(Deed::Send),
        Expected::Sent(
            b"\x28\0\0\0\0\0\x05\0\0\0\0\0\x01\0\0\0\x0a\0\0\0\0\0\0\0\0\0\0\0\0\0\x01\0\x80\x05\0\0\0\0\0\0",
        ),
    ),
    (Doing::A(Deed::Offer(b"x")), Expected::NotConnected),
    (Doing::A(STATUS), Expected::Limited(32_768)),
    (Doing::B(STATUS), Expected::Bad),
    (Doing::A(Deed::Offer(b"a")), Expected::Appended(64)),
    (Doing::A(Deed::Send), Expected::Sent(FRAME_1)),
    (Doing::A(Deed::Offer(b"b")), Expected::Appended(128)),
    (Doing::A(Deed::Send), Expected::Sent(FRAME_2)),
    (Doing::A(Deed::Offer(b"c")), Expected::Appended(192)),
    (Doing::A(Deed::Send), Expected::Sent(FRAME_3)),
    (Doing::A(Deed::Offer(b"d")), Expected::Appended(256)),
    (Doing::A(Deed::Send), Expected::Sent(FRAME_4)),
    (Doing::A(Deed::Offer(b"e")), Expected::Appended(320)),
    (Doing::A(Deed::Send), Expected::Sent(FRAME_5)),
    (Doing::A(Deed::Offer(b"f")), Expected::Appended(384)),
    (Doing::A(Deed::Send), Expected::Sent(FRAME_6)),
    (
        Doing::Deliver(0),
        Expected::Imaged(
            b"\x02\x0f\0\0\x02\0\0\0\0\0\0\0\x01\0\0\0\0\0\0\0\x01\0\0\0\x0a\0\0\0\0\0\0\0\0\0\0\0\x0f\0\0\0127.0.0.1:40000",
        ),
    ),
    (Doing::Deliver(1), Expected::Frame(Insert::Taken)),
    (Doing::B(TERMINATE), DENIED),
    (Doing::Deliver(3), Expected::Frame(Insert::Taken)),
    (Doing::Deliver(3), Expected::Frame(Insert::Repeat)),
    (Doing::A(TERMINATE), DENIED),
    (Doing::Deliver(2), Expected::Frame(Insert::Taken)),
    (Doing::Deliver(6), Expected::Frame(Insert::Taken)),
    (
        Doing::B(Deed::Poll),
        Expected::Polled(&[(64, b'a'), (128, b'b'), (192, b'c')]),
    ),
    (Doing::Deliver(5), Expected::Frame(Insert::Taken)),
    (Doing::Deliver(4), Expected::Frame(Insert::Taken)),
    (
        Doing::B(Deed::Poll),
        Expected::Polled(&[(256, b'd'), (320, b'e'), (384, b'f')]),
    ),
    (Doing::Deliver(3), Expected::Frame(Insert::Repeat)),
    (Doing::Deliver(7), Expected::Bad),
];

fn fill(alloc: Global, steps: &mut Vec<PairStep>, rows: &[Row]) -> Result<(), AllocError> {
    for &(doing, _) in rows {
        steps.push(step_of(alloc, 0, doing)?)?;
    }
    Ok(())
}

fn steps_of(alloc: Global, rows: &[Row]) -> Result<Vec<PairStep>, AllocError> {
    let mut steps = Vec::new(alloc);
    match fill(alloc, &mut steps, rows) {
        Ok(()) => Ok(steps),
        Err(refused) => {
            drop(steps);
            Err(refused)
        }
    }
}

fn answers_to(alloc: Global, rows: &[Row]) -> Result<Items<Answer>, AllocError> {
    let steps = steps_of(alloc, rows)?;
    let both = fresh_worlds(alloc);
    let answers = match both {
        Ok(both) => both.run(alloc, steps.as_slice()),
        Err(refused) => Err(refused),
    };
    drop(steps);
    answers
}

fn are_as(alloc: Global, answers: &[Answer], rows: &[Row]) -> bool {
    let mut at = 0usize;
    for &(_, expected) in rows {
        let Some(answer) = answers.get(at) else {
            return false;
        };
        if !is_as(alloc, answer, expected) {
            return false;
        }
        at = at.wrapping_add(1);
    }
    at == answers.len()
}

fn run_as(alloc: Global, rows: &[Row]) -> Result<bool, AllocError> {
    let answers = answers_to(alloc, rows)?;
    let same = are_as(alloc, answers.as_slice(), rows);
    drop(answers);
    Ok(same)
}

#[test]
fn loss_repeat_reorder(rt: HostRuntime) {
    assert_eq!(rt; run_as(rt.alloc(), &ROWS), Ok(true));
}
