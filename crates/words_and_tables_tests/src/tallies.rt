//! Tests of `receiver_reports` and `drop_tallies`.

use channel_uri::Address;
use drop_tallies::{Miss, Repairs, Tallies, Tally};
use policy_core::Verdict;
use receiver_reports::{Report, Reports};

/// An address of this host.
fn at(port: u16) -> Address {
    Address {
        octets: [127, 0, 0, 1],
        port,
    }
}

/// Denied by that rule of the first policy.
fn denied_by(rule: u32) -> Option<Verdict> {
    Some(Verdict {
        allow: false,
        rule: Some(rule),
        epoch: 1,
    })
}

fn report(port: u16, position: u64, heard: u64) -> Report {
    Report {
        from: at(port),
        position,
        heard,
    }
}

fn tally(miss: Miss, verdict: Option<Verdict>, port: u16, count: u64) -> Tally {
    Tally {
        miss,
        verdict,
        address: at(port),
        count,
    }
}

/// A receiver counts by its greatest position, and comes after those that were heard before.
fn counts_by_the_greatest() -> bool {
    let mut reports = Reports::new();
    let none = reports.least(0, 0).is_none();
    reports.note(10, &at(1), 320);
    reports.note(20, &at(2), 64);
    reports.note(30, &at(1), 128);
    let rows = [report(2, 64, 20), report(1, 320, 30)];
    none && reports.rows() == rows.as_slice()
        && reports.least(30, 10) == Some(64)
        && reports.least(31, 10) == Some(320)
        && reports.least(41, 10).is_none()
}

/// Of 33 receivers the one that was heard longest ago makes room.
fn oldest_makes_room() -> bool {
    let mut reports = Reports::new();
    for port in 1..34u16 {
        reports.note(u64::from(port), &at(port), u64::from(port));
    }
    reports.rows().len() == 32 && reports.least(33, 100) == Some(2)
}

/// Each cause, verdict and address has a row of its own.
fn counts_apart() -> bool {
    let mut tallies = Tallies::new();
    tallies.note(Miss::Stranger, None, &at(1));
    tallies.note(Miss::Withheld, denied_by(2), &at(1));
    tallies.note(Miss::Stranger, None, &at(1));
    tallies.note(Miss::Withheld, denied_by(3), &at(1));
    tallies.note(Miss::Stranger, None, &at(2));
    tallies.note(Miss::Withheld, denied_by(2), &at(1));
    let rows = [
        tally(Miss::Stranger, None, 1, 2),
        tally(Miss::Withheld, denied_by(2), 1, 2),
        tally(Miss::Withheld, denied_by(3), 1, 1),
        tally(Miss::Stranger, None, 2, 1),
    ];
    tallies.rows() == rows.as_slice() && tallies.others() == 0
}

/// After 64 rows others are one number, and a row that is there goes on.
fn others_are_one_number() -> bool {
    let mut tallies = Tallies::new();
    for port in 1..67u16 {
        tallies.note(Miss::NoStream, None, &at(port));
    }
    tallies.note(Miss::NoStream, None, &at(64));
    let last = tally(Miss::NoStream, None, 64, 2);
    tallies.rows().len() == 64 && tallies.rows()[63] == last && tallies.others() == 2
}

/// NAKs and what is sent again are counted, and a copy stays as it was.
fn repairs_are_counted() -> bool {
    let mut tallies = Tallies::new();
    tallies.hear();
    tallies.ask();
    tallies.ask();
    tallies.resend(3);
    let copy = tallies.copy();
    tallies.resend(1);
    let repairs = Repairs {
        heard: 1,
        asked: 2,
        resent: 3,
    };
    copy.repairs() == repairs && tallies.repairs().resent == 4
}

#[test]
fn receivers_are_counted(rt: HostRuntime) {
    assert!(rt; counts_by_the_greatest() & oldest_makes_room());
}

#[test]
fn what_is_dropped_is_counted(rt: HostRuntime) {
    assert!(rt; counts_apart() & others_are_one_number() & repairs_are_counted());
}
