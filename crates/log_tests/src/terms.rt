ghost use Rattle.std.specs.Prelude.{◌≡◌, ◌%◌, ◌^◌, ◌*◌, ◌<◌, [], pos};
ghost use Rattle.term_log.specs.Ident.{IsIdent};

use crate::filling::{fill, is_held};
use crate::plain::Plain;
use crate::term_reading::{begin_at, gives_all};
use std::alloc::Global;
use term_log::{Ident, LogKind, Offer, TermLog};

// What a log is made for that reads its frames in this host, from a position on.
pub(crate) fn ident(kind: LogKind, start: u64) -> Ident
    requires { (start % 32 ≡ 0) × (start < 65536 * 2 ^ 31) }
    ensures sound { IsIdent result }
    ensures value { result ≡ record { kind = kind; session = pos 7; stream = pos 1001; initial_term = pos 5; term_length = 65536; mtu = 1408; start = start } }
{
    Ident {
        kind,
        session: 7,
        stream: 1001,
        initial_term: 5,
        term_length: 65_536,
        mtu: 1408,
        start,
    }
}

// Whether a log's lease holds what the list does.
fn keeps_list(log: TermLog, plain: &Plain) -> bool {
    let lease = log.close();
    is_held(lease.bytes(), plain)
}

/// The header of the first frame with `abc`, as the transport's specification lays it out.
static HEADER: [u8; 32] = [
    35, 0, 0, 0, 0, 0xC0, 1, 0, 0, 0, 0, 0, 7, 0, 0, 0, 233, 3, 0, 0, 5, 0, 0, 0, 0, 0, 0, 0, 0, 0,
    0, 0,
];

fn begins_with_abc(bytes: &[u8]) -> bool {
    let (header, rest) = bytes.split_at(bytes.len().min(32));
    (header == HEADER.as_slice())
        & rest.starts_with(b"abc")
        & rest.iter().skip(3).all(|byte| *byte == 0)
}

fn list_of(alloc: Global, message: &[u8]) -> Option<Plain> {
    let mut plain = Plain::new(alloc);
    if plain.put_message(message) {
        Some(plain)
    } else {
        None
    }
}

// Whether a list with this message has its bytes laid out as by the transport's specification.
fn list_begins_with_abc(alloc: Global, message: &[u8]) -> bool {
    match list_of(alloc, message) {
        Some(plain) => (plain.tail() == 64) & begins_with_abc(plain.bytes.as_slice()),
        None => false,
    }
}

// Whether the bytes of a lease are those of a list with this message.
fn is_list_of(alloc: Global, bytes: &[u8], message: &[u8]) -> bool {
    match list_of(alloc, message) {
        Some(plain) => is_held(bytes, &plain),
        None => false,
    }
}

fn lease_begins_with_abc(alloc: Global, bytes: &[u8]) -> bool {
    begins_with_abc(bytes) & is_list_of(alloc, bytes, b"abc") & !is_list_of(alloc, bytes, b"abd")
}

// Whether the first bytes of lists, and of a log without frames, are laid out as by the transport's specification.
pub(crate) fn begin_with_abc(alloc: Global, mut log: TermLog) -> bool {
    let told = !list_begins_with_abc(alloc, b"abd") & !begins_with_abc(&HEADER);
    let offered = log.offer(b"abc") == Offer::At(64);
    let lease = log.close();
    let held = lease_begins_with_abc(alloc, lease.bytes());
    list_begins_with_abc(alloc, b"abc") & told & offered & held
}

// Whether a log gives the frames of a list with this message.
fn gives_message(alloc: Global, log: &TermLog, message: &[u8]) -> bool {
    match list_of(alloc, message) {
        Some(plain) => gives_all(log, &plain, 1408),
        None => false,
    }
}

// A log of one message, and lists with it, with another byte, with a byte less, and with a frame more.
pub(crate) fn tells_lists(alloc: Global, log: &mut TermLog) -> bool {
    (log.offer(b"abc") == Offer::At(64))
        & gives_message(alloc, log, b"abc")
        & !gives_message(alloc, log, b"abd")
        & !gives_message(alloc, log, b"ab")
        & !gives_message(alloc, log, [7; 1377].as_slice())
}

pub(crate) fn pads_the_rest(log: &mut TermLog) -> bool
    requires { log.old.pairs ≡ [] }
{
    let joined = log.join_pair(1) == 65_504;
    let padded = log.offer(b"x") == Offer::AdminAction;
    let passed = (log.tail() == 65_536) & (log.messages() == 0);
    let taken = log.offer(b"x") == Offer::At(65_600);
    joined & padded & passed & taken & (log.low() == 65_504) & (log.messages() == 1)
}

pub(crate) fn ends_at_the_greatest(log: &mut TermLog) -> bool
    requires { log.old.pairs ≡ [] }
{
    let joined = log.join_pair(1) == 140_737_488_355_264;
    let last = log.offer(b"x") == Offer::At(140_737_488_355_328);
    joined & last & (log.offer(b"x") == Offer::MaxPosition)
}

// A subscription reads up to a position. False where it can't.
fn read_to(log: &mut TermLog, subscription: u64, position: u64) -> bool {
    match log.pair_position(subscription) {
        Some(at) if at <= position && position <= log.tail() => {
            log.advance(subscription, position);
            true
        }
        _ => false,
    }
}

pub(crate) fn waits_for_the_slowest(log: &mut TermLog) -> bool
    requires { log.old.pairs ≡ [] }
{
    let closed = log.offer(b"x") == Offer::BackPressured;
    let first = (log.join_pair(4) == 0) & (log.offer(b"") == Offer::At(32));
    let second = (log.join_pair(9) == 32) & (log.limit() == 32_768);
    closed & first & second
}

pub(crate) fn follows_the_slowest(log: &mut TermLog) -> bool {
    let placed = (log.pair_position(9) == Some(32)) & (log.pair_position(5) == None);
    let moved = read_to(log, 4, 32) & (log.limit() == 32_800);
    log.leave_pair(4);
    log.leave_pair(9);
    placed & moved & (log.limit() == 32)
}

// Offers so many messages, and then looks at all frames that the log gives for each budget.
fn fills_and_gives(
    alloc: Global,
    log: &mut TermLog,
    plain: &mut Plain,
    rounds: u32,
    budgets: [u64; 3],
) -> bool {
    let mut same = fill(alloc, log, plain, rounds);
    for budget in &budgets {
        same &= gives_all(log, plain, *budget);
    }
    same
}

// Three terms many times over: each answer, and the frames from each frame on, are those of plain lists.
fn lists_are_kept(alloc: Global, log: &mut TermLog, plain: &mut Plain) -> bool {
    let kept = fills_and_gives(alloc, log, plain, 30, [1408; 3])
        & fills_and_gives(alloc, log, plain, 170, [0, 63, 1408])
        & fills_and_gives(alloc, log, plain, 200, [1407, 5000, 65_536]);
    kept & (plain.tail() > 655_360) & (log.tail() == plain.tail()) & (log.messages() == 400)
}

// At the end each byte is, too.
pub(crate) fn terms_are_used_again(alloc: Global, mut log: TermLog) -> bool {
    let mut plain = Plain::new(alloc);
    let kept = lists_are_kept(alloc, &mut log, &mut plain);
    kept & keeps_list(log, &plain)
}

// A list with a frame more than the log: the first answer differs, and so do those up to the end of the term. After
// its pad log and list are level, so that the last of 26 answers and those that follow are the same.
fn tells_answers(alloc: Global, log: &mut TermLog, plain: &mut Plain) -> bool {
    let put = plain.put_message(b"");
    let first = fill(alloc, log, plain, 1);
    let term = fill(alloc, log, plain, 26);
    let level = log.tail() == plain.tail();
    put & !first & !term & level & fill(alloc, log, plain, 26)
}

pub(crate) fn other_answers_are_told(alloc: Global, log: &mut TermLog) -> bool {
    let mut plain = Plain::new(alloc);
    tells_answers(alloc, log, &mut plain)
}

// A pad at the end of a term, and two messages after it: of 64 and of 160 positions.
pub(crate) fn put_three(log: &mut TermLog) {
    log.offer(b"x");
    log.offer(b"x");
    log.offer(&[7; 100]);
}

// How many frames the log gives from a position on.
fn count_from(log: &TermLog, position: u64, budget: usize) -> usize {
    if position < log.low() || log.tail() < position {
        return 999;
    }
    let mut count = 0usize;
    for _ in log.frames_from(position, budget) {
        count = count.wrapping_add(1);
    }
    count
}

/// From a position on, within a budget, so many frames.
static BUDGETS: [(u64, usize, usize); 7] = [
    (65_504, 31, 0),
    (65_504, 100_000, 1),
    (65_536, 63, 0),
    (65_536, 64, 1),
    (65_536, 223, 1),
    (65_536, 224, 2),
    (65_760, 224, 0),
];

// A budget ends between frames; of a pad it counts 32 bytes, and nothing is given after one.
pub(crate) fn counts_each(log: &TermLog) -> bool {
    let mut same = true;
    for &(position, budget, count) in &BUDGETS {
        same &= count_from(log, position, budget) == count;
    }
    same
}

/// Which frames meet a range of so many positions, from a position on.
static RANGES: [(u64, u64, &[u64]); 8] = [
    (0, u64::MAX, &[65_504, 65_536, 65_600]),
    (65_535, 1, &[65_504]),
    (65_535, 2, &[65_504, 65_536]),
    (65_599, 1, &[65_536]),
    (65_599, 2, &[65_536, 65_600]),
    (65_600, 0, &[]),
    (65_760, 1, &[]),
    (u64::MAX, u64::MAX, &[]),
];

fn meets_each(log: &TermLog, rows: &[(u64, u64, &[u64])]) -> bool {
    let mut same = true;
    for (position, size, wanted) in rows {
        same &= begin_at(log.frames_over(*position, *size), wanted);
    }
    same
}

/// With a frame changed, one too few, one too many, and in another order.
static OTHER_RANGES: [(u64, u64, &[u64]); 4] = [
    (65_599, 2, &[65_536, 65_632]),
    (65_599, 2, &[65_536]),
    (65_599, 2, &[65_536, 65_600, 65_600]),
    (65_599, 2, &[65_600, 65_536]),
];

// Whether each of these rows differs from what the log gives.
fn tells_each(log: &TermLog, rows: &[(u64, u64, &[u64])]) -> bool {
    let mut told = true;
    for row in rows {
        told &= !meets_each(log, &[*row]);
    }
    told
}

// A frame meets a range also where they share but its filling, over the end of a term too.
pub(crate) fn meets_ranges(log: &TermLog) -> bool {
    meets_each(log, &RANGES) & tells_each(log, &OTHER_RANGES)
}
