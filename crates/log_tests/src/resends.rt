//! Logs that are sent, step by step: their datagrams, and what NAKs are answered by.

use crate::datagrams::{STREAM, cut, status};
use crate::opening::opened;
use frame_codec::{Flags, Nak};
use log_traffic::{Datagrams, NakAnswer, StatusAnswer, answer_nak};
use policy_core::{Act, Decision, Verdict};
use retransmit_gate::Gate;
use std::alloc::Global;
use term_log::{Ident, Offer, TermLog};

const ONE_SECOND: u64 = 1_000_000_000;

/// For how long a range that was sent again is not sent again, in nanoseconds.
const LINGER: u64 = 60_000_000;

/// The same stream from 128 positions before the end of term 0 on.
const LATE_STREAM: Ident = Ident {
    start: 65_408,
    ..STREAM
};

/// The SETUP of a sender that stands at the start.
const SETUP: [u8; 40] = [
    40, 0, 0, 0, 0, 0, 5, 0, 0, 0, 0, 0, 1, 0, 0, 0, 10, 0, 0, 0, 0, 0, 0, 0, 0, 0, 0, 0, 0, 0, 1,
    0, 0x80, 5, 0, 0, 0, 0, 0, 0,
];

/// The one of a sender that has sent 64 bytes.
const LATER_SETUP: [u8; 40] = [
    40, 0, 0, 0, 0, 0, 5, 0, 64, 0, 0, 0, 1, 0, 0, 0, 10, 0, 0, 0, 0, 0, 0, 0, 0, 0, 0, 0, 0, 0, 1,
    0, 0x80, 5, 0, 0, 0, 0, 0, 0,
];

/// A heartbeat at the start.
const BEAT: [u8; 32] = [
    0, 0, 0, 0, 0, 0xC0, 1, 0, 0, 0, 0, 0, 1, 0, 0, 0, 10, 0, 0, 0, 0, 0, 0, 0, 0, 0, 0, 0, 0, 0,
    0, 0,
];

/// A heartbeat of a publication that lingers.
const LAST_BEAT: [u8; 32] = [
    0, 0, 0, 0, 0, 0xE0, 1, 0, 0, 0, 0, 0, 1, 0, 0, 0, 10, 0, 0, 0, 0, 0, 0, 0, 0, 0, 0, 0, 0, 0,
    0, 0,
];

/// The frame with `x`, and all of its filling.
const FRAME: [u8; 64] = [
    33, 0, 0, 0, 0, 0xC0, 1, 0, 0, 0, 0, 0, 1, 0, 0, 0, 10, 0, 0, 0, 0, 0, 0, 0, 0, 0, 0, 0, 0, 0,
    0, 0, b'x', 0, 0, 0, 0, 0, 0, 0, 0, 0, 0, 0, 0, 0, 0, 0, 0, 0, 0, 0, 0, 0, 0, 0, 0, 0, 0, 0, 0,
    0, 0, 0,
];

/// The header of the second of two frames of 1,408 bytes.
const SECOND_HEADER: [u8; 32] = [
    0x80, 5, 0, 0, 0, 0xC0, 1, 0, 0x80, 5, 0, 0, 1, 0, 0, 0, 10, 0, 0, 0, 0, 0, 0, 0, 0, 0, 0, 0,
    0, 0, 0, 0,
];

/// The headers of three frames of 640 bytes.
const FIRST_OF_THREE: [u8; 32] = [
    0x80, 2, 0, 0, 0, 0xC0, 1, 0, 0, 0, 0, 0, 1, 0, 0, 0, 10, 0, 0, 0, 0, 0, 0, 0, 0, 0, 0, 0, 0,
    0, 0, 0,
];

const SECOND_OF_THREE: [u8; 32] = [
    0x80, 2, 0, 0, 0, 0xC0, 1, 0, 0x80, 2, 0, 0, 1, 0, 0, 0, 10, 0, 0, 0, 0, 0, 0, 0, 0, 0, 0, 0,
    0, 0, 0, 0,
];

const THIRD_OF_THREE: [u8; 32] = [
    0x80, 2, 0, 0, 0, 0xC0, 1, 0, 0, 5, 0, 0, 1, 0, 0, 0, 10, 0, 0, 0, 0, 0, 0, 0, 0, 0, 0, 0, 0,
    0, 0, 0,
];

/// The frame with `x` that begins at offset 65,408, and after it the header of a pad of 64 positions.
const TERM_END: [u8; 96] = [
    33, 0, 0, 0, 0, 0xC0, 1, 0, 0x80, 0xFF, 0, 0, 1, 0, 0, 0, 10, 0, 0, 0, 0, 0, 0, 0, 0, 0, 0, 0,
    0, 0, 0, 0, b'x', 0, 0, 0, 0, 0, 0, 0, 0, 0, 0, 0, 0, 0, 0, 0, 0, 0, 0, 0, 0, 0, 0, 0, 0, 0, 0,
    0, 0, 0, 0, 0, 64, 0, 0, 0, 0, 0xC0, 0, 0, 0xC0, 0xFF, 0, 0, 1, 0, 0, 0, 10, 0, 0, 0, 0, 0, 0,
    0, 0, 0, 0, 0, 0, 0, 0, 0,
];

/// The frame with 33 times `z` at the start of term 1.
const NEXT_TERM: [u8; 96] = [
    65, 0, 0, 0, 0, 0xC0, 1, 0, 0, 0, 0, 0, 1, 0, 0, 0, 10, 0, 0, 0, 1, 0, 0, 0, 0, 0, 0, 0, 0, 0,
    0, 0, b'z', b'z', b'z', b'z', b'z', b'z', b'z', b'z', b'z', b'z', b'z', b'z', b'z', b'z', b'z',
    b'z', b'z', b'z', b'z', b'z', b'z', b'z', b'z', b'z', b'z', b'z', b'z', b'z', b'z', b'z', b'z',
    b'z', b'z', 0, 0, 0, 0, 0, 0, 0, 0, 0, 0, 0, 0, 0, 0, 0, 0, 0, 0, 0, 0, 0, 0, 0, 0, 0, 0, 0, 0,
    0, 0, 0,
];

/// What a NAK of term 0 says: an offset, and how many bytes.
type Range = (u32, i32);

// A NAK of a peer that is let or not.
fn ask<'a>(
    log: &'a TermLog,
    gate: &mut Gate,
    now: u64,
    (offset, length): Range,
    allow: bool,
) -> NakAnswer<'a> {
    let nak = Nak {
        flags: Flags::NONE,
        session_id: 1,
        stream_id: 10,
        term_id: 0,
        term_offset: offset,
        length,
    };
    let decision = Decision {
        principal: 0,
        act: Act::Retransmit,
        subject: 1,
        stream: 10,
        verdict: Verdict {
            allow,
            rule: None,
            epoch: 1,
        },
    };
    answer_nak(log, gate, now, &nak, &decision)
}

/// The first bytes of a frame, the byte that fills the rest, and how many bytes there are in all; none is no frame.
type Frame = (&'static [u8], u8, usize);

const NO_FRAME: Frame = (&[], 0, 0);

fn is_frame(bytes: &[u8], frame: Frame) -> bool {
    let (head, fill, size) = frame;
    let (front, rest) = bytes.split_at(bytes.len().min(head.len()));
    let mut same = (bytes.len() == size) & (front == head);
    for byte in rest {
        same &= *byte == fill;
    }
    same
}

// Whether the next datagram has these two frames; none where all were given.
fn gives(datagrams: &mut Datagrams<'_>, alloc: Global, first: Frame, second: Frame) -> bool {
    match datagrams.next_copy(alloc) {
        Ok(Some(copy)) => {
            let bytes = copy.as_slice();
            let (front, rest) = bytes.split_at(first.2.min(bytes.len()));
            !bytes.is_empty() & is_frame(front, first) & is_frame(rest, second)
        }
        Ok(None) => first.2 == 0,
        Err(_) => false,
    }
}

/// What a NAK is answered by.
#[derive(Clone, Copy)]
enum Answered {
    Denied,
    Empty,
    OutOfWindow,
    Lingering,
    Busy,
    /// One datagram with two frames, and one with one, are sent again, and no other one.
    Resent(Frame, Frame, Frame),
}

fn is_answered(answer: NakAnswer<'_>, alloc: Global, wanted: Answered) -> bool {
    match (answer, wanted) {
        (NakAnswer::Denied(decision), Answered::Denied) => {
            (decision.verdict.epoch == 1) & !decision.verdict.allow
        }
        (NakAnswer::Empty, Answered::Empty) => true,
        (NakAnswer::OutOfWindow, Answered::OutOfWindow) => true,
        (NakAnswer::Lingering, Answered::Lingering) => true,
        (NakAnswer::Busy, Answered::Busy) => true,
        (NakAnswer::Resent(mut datagrams), Answered::Resent(first, second, third)) => {
            gives(&mut datagrams, alloc, first, second)
                & gives(&mut datagrams, alloc, third, NO_FRAME)
                & gives(&mut datagrams, alloc, NO_FRAME, NO_FRAME)
        }
        _ => false,
    }
}

/// What is done with a log, and what becomes of it.
#[derive(Clone, Copy)]
enum Step {
    /// A status message of term 0 with no flag, of this offset and window.
    Hears(u32, u32, StatusAnswer),
    /// One at this offset asks for a SETUP.
    Elicits(u32),
    /// A message of one byte so many times.
    Offers(u8, usize, Offer),
    /// The datagram that is cut at a moment, while the publication lingers or not; of no bytes where none is due.
    Cuts(u64, bool, &'static [u8]),
    /// At 0 one of so many bytes is cut.
    Sends(usize),
    SenderIsAt(u64),
    /// A NAK at a moment, of a peer that is let or not.
    Asks(u64, Range, bool, Answered),
    /// Messages of one byte so many times, whatever they are answered.
    OffersMany(u32),
    /// Of frames of 64 bytes that begin there, asked for one by one, each is sent again.
    AsksMany(u32, u32),
}

fn offers(log: &mut TermLog, byte: u8, size: usize, answer: Offer) -> bool {
    let message = [byte; 1376];
    log.offer(&message[..size.min(1376)]) == answer
}

// Whether the datagram that is cut at a moment is this one; of no bytes where none is due.
fn cuts(log: &mut TermLog, alloc: Global, now: u64, lingers: bool, datagram: &[u8]) -> bool {
    match cut(log, alloc, now, lingers) {
        Some(bytes) => bytes.as_slice() == datagram,
        None => false,
    }
}

// Whether a datagram of so many bytes is sent.
fn sends(log: &mut TermLog, alloc: Global, size: usize) -> bool {
    match cut(log, alloc, 0, false) {
        Some(bytes) => bytes.len() == size,
        None => false,
    }
}

fn offers_many(log: &mut TermLog, count: u32) -> bool {
    for _ in 0..count {
        let _ = log.offer(b"x");
    }
    true
}

fn asks_many(log: &TermLog, gate: &mut Gate, first: u32, end: u32) -> bool {
    let mut same = true;
    for number in first..end {
        let offset = number.wrapping_mul(64);
        same &= matches!(
            ask(log, gate, ONE_SECOND, (offset, 64), true),
            NakAnswer::Resent(_)
        );
    }
    same
}

fn goes(log: &mut TermLog, gate: &mut Gate, alloc: Global, step: Step) -> bool {
    match step {
        Step::Hears(offset, window, answer) => {
            status(log, Flags::NONE, offset, window) == answer
        }
        Step::Elicits(offset) => {
            status(log, Flags::SEND_SETUP, offset, 0) == StatusAnswer::Elicited
        }
        Step::Offers(byte, size, answer) => offers(log, byte, size, answer),
        Step::Cuts(now, lingers, datagram) => cuts(log, alloc, now, lingers, datagram),
        Step::Sends(size) => sends(log, alloc, size),
        Step::SenderIsAt(position) => log.sender_position() == position,
        Step::Asks(now, range, allow, answer) => {
            is_answered(ask(log, gate, now, range, allow), alloc, answer)
        }
        Step::OffersMany(count) => offers_many(log, count),
        Step::AsksMany(first, end) => asks_many(log, gate, first, end),
    }
}

// While nobody answers, SETUPs alone are sent, each past the interval since the one before.
static SETUPS: [Step; 3] = [
    Step::Cuts(0, false, &SETUP),
    Step::Cuts(100_000_000, false, &[]),
    Step::Cuts(100_000_001, false, &SETUP),
];

// Heartbeats are sent past their interval since the datagram before, where nothing may be sent.
static BEATS: [Step; 4] = [
    Step::Hears(0, 0, StatusAnswer::Limit(0)),
    Step::Cuts(0, false, &BEAT),
    Step::Cuts(100_000_000, false, &[]),
    Step::Cuts(100_000_001, true, &LAST_BEAT),
];

// A status message lets the log be sent; beyond what was sent it is dropped, and a wish for a SETUP is one alone.
static OPENS: [Step; 9] = [
    Step::Hears(0, 32_768, StatusAnswer::Limit(32_768)),
    Step::Offers(b'x', 1, Offer::At(64)),
    Step::Hears(64, 32_768, StatusAnswer::OutOfWindow),
    Step::Cuts(0, false, &FRAME),
    Step::SenderIsAt(64),
    Step::Hears(0, 0, StatusAnswer::Limit(32_768)),
    Step::Elicits(96),
    Step::Cuts(0, false, &LATER_SETUP),
    Step::Cuts(0, false, &[]),
];

const SECOND: Frame = (&SECOND_HEADER, b'b', 1408);

// A frame is sent again to who may ask, and not again while it lingers. Nothing is asked for, or what was not sent.
static ONE_FRAME: [Step; 11] = [
    Step::Offers(b'a', 1376, Offer::At(1408)),
    Step::Offers(b'b', 1376, Offer::At(2816)),
    Step::Hears(0, 32_768, StatusAnswer::Limit(32_768)),
    Step::Sends(1408),
    Step::Sends(1408),
    Step::Asks(
        ONE_SECOND,
        (1408, 1408),
        true,
        Answered::Resent(SECOND, NO_FRAME, NO_FRAME),
    ),
    Step::Asks(ONE_SECOND, (0, 1408), false, Answered::Denied),
    Step::Asks(ONE_SECOND + LINGER, (1408, 1408), true, Answered::Lingering),
    Step::Asks(
        ONE_SECOND + LINGER + 1,
        (1408, 1408),
        true,
        Answered::Resent(SECOND, NO_FRAME, NO_FRAME),
    ),
    Step::Asks(ONE_SECOND, (1408, 0), true, Answered::Empty),
    Step::Asks(ONE_SECOND, (2816, 32), true, Answered::OutOfWindow),
];

const FIRST_640: Frame = (&FIRST_OF_THREE, b'a', 640);

const SECOND_640: Frame = (&SECOND_OF_THREE, b'b', 640);

const THIRD_640: Frame = (&THIRD_OF_THREE, b'c', 640);

// The range meets the first frame and the last one in a part alone.
static DATAGRAMS_FILL: [Step; 7] = [
    Step::Offers(b'a', 608, Offer::At(640)),
    Step::Offers(b'b', 608, Offer::At(1280)),
    Step::Offers(b'c', 608, Offer::At(1920)),
    Step::Hears(0, 32_768, StatusAnswer::Limit(32_768)),
    Step::Sends(1280),
    Step::Sends(640),
    Step::Asks(
        ONE_SECOND,
        (608, 704),
        true,
        Answered::Resent(FIRST_640, SECOND_640, THIRD_640),
    ),
];

// Of seventeen frames, asked for one by one, the last one is refused.
static FEW_LINGER: [Step; 6] = [
    Step::OffersMany(17),
    Step::Hears(0, 32_768, StatusAnswer::Limit(32_768)),
    Step::Sends(1088),
    Step::Asks(
        ONE_SECOND,
        (0, 64),
        true,
        Answered::Resent((&FRAME, 0, 64), NO_FRAME, NO_FRAME),
    ),
    Step::AsksMany(1, 16),
    Step::Asks(ONE_SECOND, (1024, 64), true, Answered::Busy),
];

const OF_TERM_END: Frame = (&TERM_END, 0, 96);

const OF_NEXT_TERM: Frame = (&NEXT_TERM, 0, 96);

// A frame and a pad end the term, and a frame of the next one is sent.
static TERMS_STAY_APART: [Step; 8] = [
    Step::Offers(b'x', 1, Offer::At(65_472)),
    Step::Offers(b'z', 33, Offer::AdminAction),
    Step::Offers(b'z', 33, Offer::At(65_632)),
    Step::Hears(65_408, 32_768, StatusAnswer::Limit(98_176)),
    Step::Sends(96),
    Step::Sends(96),
    Step::Asks(ONE_SECOND, (65_376, 64), true, Answered::OutOfWindow),
    Step::Asks(
        ONE_SECOND,
        (65_440, 192),
        true,
        Answered::Resent(OF_TERM_END, NO_FRAME, OF_NEXT_TERM),
    ),
];

fn are_taken(log: &mut TermLog, alloc: Global, steps: &[Step]) -> bool {
    let mut gate = Gate::new(LINGER);
    for &step in steps {
        if !goes(log, &mut gate, alloc, step) {
            return false;
        }
    }
    true
}

/// Whether a log of the stream goes as the steps say; false without memory.
fn is_sent(alloc: Global, is_late: bool, steps: &[Step]) -> bool {
    match opened(alloc, if is_late { LATE_STREAM } else { STREAM }) {
        Ok(mut log) => {
            let taken = are_taken(&mut log, alloc, steps);
            drop(log);
            taken
        }
        Err(_) => false,
    }
}

/// Whether logs are sent, and NAKs answered, as they should.
pub(crate) fn are_sent(alloc: Global) -> bool {
    is_sent(alloc, false, &SETUPS)
        & is_sent(alloc, false, &BEATS)
        & is_sent(alloc, false, &OPENS)
        & is_sent(alloc, false, &ONE_FRAME)
        & is_sent(alloc, false, &DATAGRAMS_FILL)
        & is_sent(alloc, false, &FEW_LINGER)
        & is_sent(alloc, true, &TERMS_STAY_APART)
}
