//! Tests of `audit_ring`.

use audit_ring::{Audit, NoMemory};
use policy_core::{Act, Decision, Verdict};
use std::alloc::Global;

/// A decision that differs from the others by its subject.
fn decision(subject: u64) -> Decision {
    Decision {
        principal: 7,
        act: Act::Offer,
        subject,
        stream: 10,
        verdict: Verdict {
            allow: false,
            rule: None,
            epoch: 1,
        },
    }
}

/// An audit after pushes of the subjects from 1 up to this one.
fn filled(alloc: Global, last: u64) -> Result<Audit, NoMemory> {
    let mut audit = Audit::new(alloc)?;
    for subject in 1..=last {
        audit.push(decision(subject));
    }
    Ok(audit)
}

/// Whether the audit keeps the subjects from the first to the last, in order, and no others.
fn keeps(audit: &Audit, first: u64, last: u64) -> bool {
    let mut subject = first;
    for item in audit.items() {
        if *item != decision(subject) {
            return false;
        }
        subject = subject.wrapping_add(1);
    }
    subject == last.wrapping_add(1)
}

/// How many are pushed; the first and the last that are kept, how many these are, and how many are dropped.
type Row = (u64, u64, u64, usize, u64);

static AUDITS: [Row; 4] = [
    (0, 1, 0, 0, 0),
    // 4,096 decisions are kept; the next one drops the oldest.
    (4096, 1, 4096, 4096, 0),
    (4097, 2, 4097, 4096, 1),
    // The ring goes round more than twice.
    (10_000, 5905, 10_000, 4096, 5904),
];

/// What differs from these in one place.
static OTHER_AUDITS: [Row; 3] = [(3, 2, 4, 3, 0), (3, 1, 4, 3, 0), (3, 1, 3, 3, 1)];

fn is_kept(audit: &Audit, row: Row) -> bool {
    let (_, first, last, kept, dropped) = row;
    keeps(audit, first, last) && audit.items().len() == kept && audit.dropped() == dropped
}

/// Whether the audit is as the row says; false without memory.
fn is_row(alloc: Global, row: Row) -> bool {
    match filled(alloc, row.0) {
        Ok(audit) => is_kept(&audit, row),
        Err(_) => false,
    }
}

/// Whether each of these rows is one, or none of them.
fn are_rows(alloc: Global, rows: &[Row], wanted: bool) -> bool {
    for &row in rows {
        if is_row(alloc, row) != wanted {
            return false;
        }
    }
    true
}

#[test]
fn full_queue_and_audit(rt: HostRuntime) {
    assert!(rt; are_rows(rt.alloc(), &AUDITS, true) & are_rows(rt.alloc(), &OTHER_AUDITS, false));
}
