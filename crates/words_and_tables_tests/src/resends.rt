//! Tests of `retransmit_gate`.

use retransmit_gate::{Answer, Gate, Nak, Nakker};

/// A moment, the position and the length of a NAK that comes then, the first position that may be sent again, and what
/// becomes of the NAK.
type Row = (u64, u64, i32, u64, Answer);

/// Whether the gate answers so, where positions up to `end` may be sent again.
fn answers(gate: &mut Gate, end: u64, rows: &[Row]) -> bool {
    for &(now, position, length, start, answer) in rows {
        if gate.on_nak(now, position, length, start..end) != answer {
            return false;
        }
    }
    true
}

/// Whether a gate whose ranges linger for 60 ms answers so, of a sender at position 2816.
fn are_answered(rows: &[Row]) -> bool {
    let mut gate = Gate::new(60_000_000);
    answers(&mut gate, 2816, rows)
}

/// A sender whose log still holds all of it.
static RESENDS: [Row; 5] = [
    (1_000_000_000, 1408, 1408, 0, Answer::Resend),
    (1_060_000_000, 1408, 1408, 0, Answer::Lingering),
    (1_060_000_001, 1408, 1408, 0, Answer::Resend),
    (1_060_000_001, 1408, 0, 0, Answer::Empty),
    (1_060_000_001, 2816, 32, 0, Answer::OutOfWindow),
];

#[test]
fn resend_by_source_principal(rt: HostRuntime) {
    assert!(rt; are_answered(&RESENDS) & !are_answered(&[(0, 0, 64, 0, Answer::Lingering)]));
}

/// The order of the answers, each where the next one would apply as well.
static ORDER: [Row; 8] = [
    (0, 5000, -1, 0, Answer::Empty),
    (0, 0, 64, 0, Answer::Resend),
    (0, 0, 64, 32, Answer::OutOfWindow),
    (0, 2752, 65, 32, Answer::OutOfWindow),
    (0, 0, 2147483647, 0, Answer::OutOfWindow),
    (0, 18446744073709551615, 2147483647, 0, Answer::OutOfWindow),
    (0, 63, 1, 0, Answer::Lingering),
    (0, 64, 2752, 0, Answer::Resend),
];

#[test]
fn first_answer_that_applies(rt: HostRuntime) {
    assert!(rt; are_answered(&ORDER));
}

/// A moment earlier than one already seen counts as the one seen, whatever the answer was then.
static MOMENTS: [Row; 5] = [
    (0, 0, 64, 0, Answer::Resend),
    (60_000_001, 0, 0, 0, Answer::Empty),
    (0, 0, 64, 0, Answer::Resend),
    (120_000_001, 0, 64, 0, Answer::Lingering),
    (120_000_002, 0, 64, 0, Answer::Resend),
];

#[test]
fn moments_never_go_back(rt: HostRuntime) {
    assert!(rt; are_answered(&MOMENTS));
}

/// Whether a gate answers so once it resent 16 ranges that have no position in common.
fn are_answered_then(rows: &[Row]) -> bool {
    let mut gate = Gate::new(60_000_000);
    for n in 0..16 {
        if gate.on_nak(n, n * 64, 64, 0..65536) != Answer::Resend {
            return false;
        }
    }
    answers(&mut gate, 65536, rows)
}

/// The seventeenth finds no room; a linger later there is room again.
static SEVENTEENTH: [Row; 5] = [
    (16, 1024, 64, 0, Answer::Busy),
    (16, 960, 128, 0, Answer::Lingering),
    (60_000_000, 1024, 64, 0, Answer::Busy),
    (60_000_001, 1024, 64, 0, Answer::Resend),
    (60_000_001, 1088, 64, 0, Answer::Busy),
];

#[test]
fn seventeen_disjoint_naks(rt: HostRuntime) {
    let other = are_answered_then(&[(16, 1024, 64, 0, Answer::Resend)]);
    assert!(rt; are_answered_then(&SEVENTEENTH) & !other);
}

/// A moment, the position and the length of the gap that is seen then, and the NAK that is due.
type Tick = (u64, Option<(u64, u32)>, Option<Nak>);

/// Whether the NAKs are due, where a gap is asked for past `delay` and again past each `repeat`.
fn are_due(delay: u64, repeat: u64, rows: &[Tick]) -> bool {
    let mut nakker = Nakker::new(delay, repeat);
    for &(now, gap, due) in rows {
        if nakker.on_tick(now, gap) != due {
            return false;
        }
    }
    true
}

const FIRST: Option<Nak> = Some(Nak {
    position: 0,
    length: 64,
});

/// A gap that is seen at 0 is asked for past 1 ms, and again past 60 ms since.
static TIMES: [Tick; 5] = [
    (0, Some((0, 64)), None),
    (1_000_000, Some((0, 64)), None),
    (1_000_001, Some((0, 64)), FIRST),
    (61_000_001, Some((0, 64)), None),
    (61_000_002, Some((0, 64)), FIRST),
];

#[test]
fn nak_and_status_timing(rt: HostRuntime) {
    let other = are_due(1_000_000, 60_000_000, &[(0, Some((0, 64)), FIRST)]);
    assert!(rt; are_due(1_000_000, 60_000_000, &TIMES) & !other);
}

const LATER: Option<Nak> = Some(Nak {
    position: 128,
    length: 32,
});

/// A gap at another position is a new one, as is one after a tick without a gap; one of another length is not.
static GAPS: [Tick; 8] = [
    (0, Some((64, 64)), None),
    (8, Some((128, 64)), None),
    (18, Some((128, 64)), None),
    (19, Some((128, 32)), LATER),
    (20, None, None),
    (120, Some((128, 32)), None),
    (0, Some((128, 32)), None),
    (131, Some((128, 32)), LATER),
];

#[test]
fn gaps_that_change(rt: HostRuntime) {
    assert!(rt; are_due(10, 100, &GAPS));
}
