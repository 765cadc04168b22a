ghost use Rattle.std.specs.Prelude.{◌≡◌, [], IfOk};

use crate::image_reading::{fill, gives, is_start, join, polls, read_to, reads};
use crate::receiving::{beat_is_heard, is_answered_in_time};
use crate::shuffling::{agree, go_on, hand_in, hand_in_cell, open};
use crate::table::{Cell, Table};
use image_log::{Ident, ImageLog, Insert};
use log_arena::NoRoom;
use std::alloc::Global;

// Session 9, stream 10: terms of 64 KiB from term 5 on.
pub(crate) const STREAM: Ident = Ident {
    session_id: 9,
    stream_id: 10,
    initial_term_id: 5,
    term_length: 65_536,
};

/// How a log begins, and who reads it then.
#[derive(Clone, Copy)]
enum Opening {
    Nobody,
    /// Subscription 1, from 0 on.
    One,
    /// Subscription 4 from 0 on, and 9 from 64 on; 128 is whole.
    Two,
    /// At 64.
    Later,
}

/// What is done with a log, and what it shows.
#[derive(Clone, Copy)]
enum Step {
    /// A frame of 64 bytes at a position, whose payload is one byte over and over, is answered so.
    Inserts(u64, u8, Insert),
    /// A frame is taken.
    Takes(u64, Cell),
    /// The base, the contiguous position and the gap.
    IsAt(u64, u64, Option<(u64, u32)>),
    /// Frames of 64 bytes are taken up to a position, at most so many; the subscription reads each.
    Fills(u64, u64, u32),
    /// The subscription's position; none where it does not read the log.
    StandsAt(u64, Option<u64>),
    BaseIs(u64),
    WholeTo(u64),
    GapIs(Option<(u64, u32)>),
    WindowIs(u32),
    /// A subscription reads up to a position.
    ReadsTo(u64, u64),
    Leaves(u64),
    Rejoin(&'static [u64]),
    /// From a position on, within so many bytes, so many frames are read, up to an end.
    Reads(u64, usize, u64, u64),
    /// A frame that is whole begins there, or what is whole ends there.
    IsStart(u64),
    /// A poll of a subscription for so many fragments gives those that end there, and is not taken for one that gives any of
    /// the others.
    Gives(u64, usize, &'static [u64], &'static [&'static [u64]]),
    /// It gives those that end there, and leaves the subscription at a position.
    Polls(u64, usize, &'static [u64], u64),
    Heard(u64),
    IsSilent(u64, u64),
    Beat(u64),
    StatusIsDue(u64, u64),
    StatusSent(u64),
    AnswersInTime,
    HearsBeat,
    /// In so many steps that look random it does what the plain table does, and shows all of it or not.
    Agrees(u32, bool),
    OtherTableAgrees,
}

fn is_at(log: &ImageLog, base: u64, contiguous: u64, gap: Option<(u64, u32)>) -> bool {
    (log.base() == base) & (log.contiguous() == contiguous) & (log.gap() == gap)
}

fn stands_at(log: &ImageLog, subscription: u64, position: u64) -> bool {
    log.pair_position(subscription) == Some(position)
}

fn two_read(log: &mut ImageLog) -> bool
    requires { log.old.rebuilt.pairs ≡ [] }
{
    let first = (join(log, 4) == 0) & (hand_in(log, 0, 1) == Some(Insert::Taken));
    let second = (join(log, 9) == 64) & (hand_in(log, 64, 2) == Some(Insert::Taken));
    let places = stands_at(log, 4, 0) & stands_at(log, 9, 64);
    first & second & places & (log.pair_position(5) == None) & (log.base() == 0)
}

// Whether bytes are zeros but for the 64 from a place on, of which 32 are 7.
fn is_one_frame(bytes: &[u8], at: usize) -> bool {
    let filled = bytes.iter().filter(|b| **b == 7).count();
    let before = bytes.iter().take(at).all(|b| *b == 0);
    let behind = bytes.iter().skip(at.saturating_add(64)).all(|b| *b == 0);
    (filled == 32) & before & behind
}

// Whether the log's lease comes back with one frame, and zeros.
fn gives_back(log: ImageLog, at: usize) -> bool {
    let lease = log.close();
    is_one_frame(lease.bytes(), at)
}

// Bytes that are no frame of the stream, or not at their header's position, are noticed.
fn frames_of_others_are_told() -> bool {
    let mut frame = [0; 35];
    frame[0] = 35;
    frame[6] = 1;
    frame[12] = 9;
    frame[16] = 10;
    frame[20] = 5;
    let other = Ident {
        session_id: 8,
        ..STREAM
    };
    STREAM.admits(0, &frame)
        & !STREAM.admits(64, &frame)
        & !other.admits(0, &frame)
        & !STREAM.admits(0, b"")
}

// A table with a frame that the log does not have.
fn other_table_agrees(alloc: Global, log: &mut ImageLog) -> bool {
    match Table::new(alloc, 16_384) {
        Ok(mut table) => {
            table.insert(64, Cell::Short);
            let same = go_on(alloc, log, &mut table, 100);
            drop(table);
            same
        }
        Err(_) => true,
    }
}

fn tells_other_bytes() -> bool {
    let mut bytes = [0; 256];
    bytes[64..96].copy_from_slice(&[7; 32]);
    let sound = is_one_frame(&bytes, 64) & !is_one_frame(&bytes, 128);
    bytes[128] = 1;
    let behind = is_one_frame(&bytes, 64);
    bytes[128] = 0;
    bytes[64] = 0;
    sound & !behind & !is_one_frame(&bytes, 64)
}

fn rejoins(log: &mut ImageLog, subscriptions: &[u64]) -> bool {
    if subscriptions.len() > 512 {
        return false;
    }
    log.rejoin(subscriptions);
    true
}

/// Whether what is asked is so.
fn holds(log: &ImageLog, step: Step) -> bool {
    match step {
        Step::IsAt(base, contiguous, gap) => is_at(log, base, contiguous, gap),
        Step::StandsAt(subscription, position) => log.pair_position(subscription) == position,
        Step::BaseIs(base) => log.base() == base,
        Step::WholeTo(position) => log.contiguous() == position,
        Step::GapIs(gap) => log.gap() == gap,
        Step::WindowIs(window) => log.window() == window,
        Step::Reads(position, bytes, count, end) => reads(log, position, bytes, count, end),
        Step::IsStart(position) => is_start(log, position),
        Step::IsSilent(now, limit) => log.silent(now, limit),
        Step::StatusIsDue(now, interval) => log.status_due(now, interval),
        _ => false,
    }
}

/// Whether what is done is answered so, or what is asked is so.
fn goes(alloc: Global, log: &mut ImageLog, step: Step) -> bool {
    match step {
        Step::Inserts(position, fill, answer) => hand_in(log, position, fill) == Some(answer),
        Step::Takes(position, cell) => {
            hand_in_cell(log, position, cell, false) == Some(Insert::Taken)
        }
        Step::Fills(subscription, end, count) => fill(alloc, log, subscription, end, count),
        Step::ReadsTo(subscription, position) => read_to(alloc, log, subscription, position),
        Step::Leaves(subscription) => {
            log.leave_pair(subscription);
            true
        }
        Step::Rejoin(subscriptions) => rejoins(log, subscriptions),
        Step::Polls(subscription, limit, ends, behind) => {
            polls(alloc, log, subscription, limit, ends, behind)
        }
        Step::Gives(subscription, limit, ends, others) => {
            gives(alloc, log, subscription, limit, ends, others)
        }
        Step::Heard(now) => {
            log.heard(now);
            true
        }
        Step::Beat(position) => {
            log.beat(position);
            true
        }
        Step::StatusSent(now) => {
            log.status_sent(now);
            true
        }
        Step::AnswersInTime => is_answered_in_time(log),
        Step::HearsBeat => beat_is_heard(log),
        Step::Agrees(steps, all) => agree(alloc, log, steps) == Some(all),
        Step::OtherTableAgrees => other_table_agrees(alloc, log),
        _ => holds(log, step),
    }
}

fn are_taken(alloc: Global, log: &mut ImageLog, steps: &[(Step, bool)]) -> bool {
    for &(step, wanted) in steps {
        if goes(alloc, log, step) != wanted {
            return false;
        }
    }
    true
}

const INSERTS: [(Step, bool); 13] = [
    (Step::IsAt(0, 0, None), true),
    (Step::Inserts(0, 1, Insert::Taken), true),
    (Step::Inserts(128, 3, Insert::Taken), true),
    (Step::IsAt(0, 64, Some((64, 64))), true),
    (Step::Inserts(64, 2, Insert::Taken), true),
    (Step::IsAt(0, 192, None), true),
    (Step::Inserts(64, 2, Insert::Repeat), true),
    (Step::Inserts(64, 9, Insert::Overlap), true),
    (Step::Inserts(32768, 4, Insert::Beyond), true),
    (Step::Inserts(32704, 5, Insert::Taken), true),
    (Step::Fills(1, 65_536, 1024), true),
    (Step::IsAt(65_536, 65_536, None), true),
    (Step::Inserts(0, 1, Insert::Below), true),
];

// The base is the least position of a pair, and stays where none is left.
const SLOWEST_IS_THE_BASE: [(Step, bool); 9] = [
    (Step::ReadsTo(9, 128), true),
    (Step::BaseIs(0), true),
    (Step::ReadsTo(4, 64), true),
    (Step::BaseIs(64), true),
    (Step::Leaves(4), true),
    (Step::BaseIs(128), true),
    (Step::Leaves(9), true),
    (Step::StandsAt(9, None), true),
    (Step::BaseIs(128), true),
];

// A log is silent where nothing was heard for longer than the limit. Moments may come out of order.
const FALLS_SILENT: [(Step, bool); 6] = [
    (Step::Heard(500), true),
    (Step::Heard(300), true),
    (Step::IsSilent(600, 100), false),
    (Step::IsSilent(601, 100), true),
    (Step::IsSilent(0, 0), false),
    (Step::IsSilent(u64::MAX, u64::MAX), false),
];

// What is whole is read frame by frame: up to the contiguous position or the end of a term, within so many bytes, and
// nothing after a pad, which takes 32 of them.
const WHOLE_IS_READ: [(Step, bool); 17] = [
    (Step::Takes(0, Cell::Long(1)), true),
    (Step::Takes(64, Cell::Long(1)), true),
    (Step::Takes(128, Cell::Pad), true),
    (Step::Takes(192, Cell::Long(1)), true),
    (Step::Takes(320, Cell::Long(1)), true),
    (Step::Reads(0, 63, 0, 0), true),
    (Step::Reads(0, 127, 1, 64), true),
    (Step::Reads(0, 159, 2, 128), true),
    (Step::Reads(0, 160, 3, 192), true),
    (Step::Reads(0, 1024, 3, 192), true),
    (Step::Reads(192, 1024, 1, 256), true),
    (Step::Reads(256, 1024, 0, 256), true),
    (Step::Takes(384, Cell::Short), true),
    (Step::Takes(320, Cell::Short), false),
    (Step::Reads(0, 160, 2, 192), false),
    (Step::Reads(0, 160, 3, 160), false),
    (Step::Reads(288, 1024, 0, 288), false),
];

// Exactly the subscriptions that are named read on: one that was there from where it was, another from what is whole.
const NAMED_READ_ON: [(Step, bool); 15] = [
    (Step::ReadsTo(9, 128), true),
    (Step::WholeTo(128), true),
    (Step::Rejoin(&[4, 5]), true),
    (Step::StandsAt(4, Some(0)), true),
    (Step::BaseIs(0), true),
    (Step::StandsAt(5, Some(128)), true),
    (Step::StandsAt(9, None), true),
    (Step::Rejoin(&[5]), true),
    (Step::StandsAt(5, Some(128)), true),
    (Step::BaseIs(128), true),
    (Step::Rejoin(&[]), true),
    (Step::StandsAt(5, None), true),
    (Step::BaseIs(128), true),
    (Step::Rejoin(&[4]), true),
    (Step::StandsAt(4, Some(128)), true),
];

// A poll is given as many fragments as it asks for of what is whole. A pad does not count, and one after the last
// fragment is left.
const POLLS_GIVE_WHOLE: [(Step, bool); 20] = [
    (Step::Takes(0, Cell::Long(7)), true),
    (Step::Takes(64, Cell::Long(7)), true),
    (Step::Takes(128, Cell::Pad), true),
    (Step::Takes(192, Cell::Long(7)), true),
    (Step::Takes(320, Cell::Long(7)), true),
    (Step::IsStart(0), true),
    (Step::IsStart(64), true),
    (Step::IsStart(128), true),
    (Step::IsStart(256), true),
    (Step::IsStart(32), false),
    (Step::IsStart(257), false),
    (Step::IsStart(288), false),
    (Step::Polls(1, 0, &[], 0), true),
    (Step::Polls(1, 1, &[64], 64), true),
    (Step::Polls(1, 1, &[128], 128), true),
    (Step::Polls(1, 5, &[256], 256), true),
    (Step::Polls(1, 5, &[], 256), true),
    (Step::Takes(256, Cell::Long(7)), true),
    (Step::Polls(1, 5, &[320, 384], 384), true),
    (Step::BaseIs(384), true),
];

// Polls go over the ends of terms.
const POLLS_GO_OVER: [(Step, bool); 5] = [
    (Step::Fills(1, 65_472, 1023), true),
    (Step::Takes(65_472, Cell::Long(7)), true),
    (Step::Takes(65_536, Cell::Long(7)), true),
    (Step::Polls(1, 9, &[65_536, 65_600], 65_600), true),
    (Step::Inserts(65_472, 7, Insert::Below), true),
];

// A poll of a subscription that does not read the log gives nothing, and leaves the others where they are.
const OTHERS_ARE_NOT_POLLED: [(Step, bool); 10] = [
    (Step::Takes(0, Cell::Long(7)), true),
    (Step::Takes(64, Cell::Long(7)), true),
    (Step::Takes(128, Cell::Pad), true),
    (Step::Takes(192, Cell::Long(7)), true),
    (Step::Takes(320, Cell::Long(7)), true),
    (Step::Gives(2, 5, &[], &[]), true),
    (Step::StandsAt(1, Some(0)), true),
    (Step::StandsAt(2, None), true),
    (Step::Gives(1, 1, &[64], &[&[], &[96], &[64, 96]]), true),
    (Step::Polls(1, 1, &[128], 96), false),
];

// A status message is due where none was sent yet, past the interval, and where the base moved by a quarter of the
// window, which is a fourth of 32 KiB here.
const STATUS_IS_DUE: [(Step, bool); 12] = [
    (Step::WindowIs(32_768), true),
    (Step::StatusIsDue(0, 200), true),
    (Step::StatusSent(1000), true),
    (Step::StatusIsDue(1200, 200), false),
    (Step::StatusIsDue(1201, 200), true),
    (Step::StatusIsDue(0, 0), false),
    (Step::Fills(1, 8128, 127), true),
    (Step::StatusIsDue(1000, 200), false),
    (Step::Fills(1, 8192, 1), true),
    (Step::StatusIsDue(1000, 200), true),
    (Step::StatusSent(1000), true),
    (Step::StatusIsDue(1000, 200), false),
];

const NAK_AND_STATUS_TIMING: [(Step, bool); 1] = [(Step::AnswersInTime, true)];

const BEAT_IS_HEARD: [(Step, bool); 1] = [(Step::HearsBeat, true)];

// Other answers are noticed. What is filled is one frame too few, and then has another reader.
const OTHER_ANSWERS: [(Step, bool); 10] = [
    (Step::Inserts(0, 1, Insert::Taken), true),
    (Step::Inserts(0, 1, Insert::Overlap), false),
    (Step::IsAt(32, 64, None), false),
    (Step::IsAt(0, 32, None), false),
    (Step::IsAt(0, 64, Some((64, 32))), false),
    (Step::IsAt(0, 64, None), true),
    (Step::Fills(1, 256, 2), false),
    (Step::Fills(2, 256, 1), false),
    (Step::ReadsTo(2, 256), false),
    (Step::ReadsTo(1, 257), false),
];

// Frames come in an order that looks random.
const ANOTHER_ORDER: [(Step, bool); 1] = [(Step::Agrees(5000, true), true)];

// In a hundred steps not all is seen.
const FEW_IN_ANOTHER_ORDER: [(Step, bool); 1] = [(Step::Agrees(100, false), true)];

const OTHER_TABLE: [(Step, bool); 1] = [(Step::OtherTableAgrees, false)];

// Frames of terms that all have read go, and their bytes are zeros again; the room serves later terms.
const READ_TERMS_GO: [(Step, bool); 3] = [
    (Step::Fills(1, 262_144, 4096), true),
    (Step::Inserts(262_080, 7, Insert::Below), true),
    (Step::Inserts(262_144, 7, Insert::Taken), true),
];

const FRAME_COMES_BACK: [(Step, bool); 1] = [(Step::Inserts(64, 7, Insert::Taken), true)];

// A log opens in memory that was taken before, in a lease whose bytes are those of its frames.
const LATER_LOG: [(Step, bool); 2] = [
    (Step::IsAt(64, 64, None), true),
    (Step::Inserts(64, 7, Insert::Taken), true),
];

// The gap without a frame after it goes to the greatest position heard of, but within the window.
const GAP_GOES_ON: [(Step, bool); 8] = [
    (Step::Inserts(0, 1, Insert::Below), true),
    (Step::GapIs(None), true),
    (Step::Beat(256), true),
    (Step::GapIs(Some((64, 192))), true),
    (Step::Beat(128), true),
    (Step::GapIs(Some((64, 192))), true),
    (Step::Inserts(65_472, 2, Insert::Beyond), true),
    (Step::GapIs(Some((64, 32_768))), true),
];

/// How a log begins, its steps, each with whether it is so, and where its lease then has the one frame that is left, where
/// that is looked at.
type Play = (Opening, &'static [(Step, bool)], Option<usize>);

static PLAYS: [Play; 19] = [
    (Opening::One, &INSERTS, None),
    (Opening::Two, &SLOWEST_IS_THE_BASE, None),
    (Opening::Nobody, &FALLS_SILENT, None),
    (Opening::Nobody, &WHOLE_IS_READ, None),
    (Opening::Two, &NAMED_READ_ON, None),
    (Opening::One, &POLLS_GIVE_WHOLE, None),
    (Opening::One, &POLLS_GO_OVER, None),
    (Opening::One, &OTHERS_ARE_NOT_POLLED, None),
    (Opening::One, &STATUS_IS_DUE, None),
    (Opening::One, &NAK_AND_STATUS_TIMING, None),
    (Opening::Nobody, &BEAT_IS_HEARD, None),
    (Opening::One, &OTHER_ANSWERS, None),
    (Opening::One, &ANOTHER_ORDER, None),
    (Opening::One, &FEW_IN_ANOTHER_ORDER, None),
    (Opening::One, &OTHER_TABLE, None),
    (Opening::One, &READ_TERMS_GO, Some(65_536)),
    (Opening::Nobody, &FRAME_COMES_BACK, Some(64)),
    (Opening::Later, &LATER_LOG, Some(64)),
    (Opening::Later, &GAP_GOES_ON, None),
];

fn opened(alloc: Global, opening: Opening) -> Result<ImageLog, NoRoom>
    ensures { IfOk result (λ log. log.rebuilt.pairs ≡ []) }
{
    match opening {
        Opening::Later => open(alloc, STREAM, 64),
        _ => open(alloc, STREAM, 0),
    }
}

fn begins(log: &mut ImageLog, opening: Opening) -> bool
    requires { log.old.rebuilt.pairs ≡ [] }
{
    match opening {
        Opening::One => join(log, 1) == 0,
        Opening::Two => two_read(log),
        _ => true,
    }
}

/// Whether a log goes as the play says; false without memory.
fn is_played(alloc: Global, play: Play) -> bool {
    match opened(alloc, play.0) {
        Ok(mut log) => {
            let taken = begins(&mut log, play.0) && are_taken(alloc, &mut log, play.1);
            match play.2 {
                Some(at) => taken & gives_back(log, at),
                None => {
                    drop(log);
                    taken
                }
            }
        }
        Err(_) => false,
    }
}

fn are_played(alloc: Global, plays: &[Play]) -> bool {
    for &play in plays {
        if !is_played(alloc, play) {
            return false;
        }
    }
    true
}

#[test]
fn logs_go_as_they_should(rt: HostRuntime) {
    let told = frames_of_others_are_told() & tells_other_bytes();
    assert!(rt; told & are_played(rt.alloc(), &PLAYS));
}
