//! Tests of `decision_cache`: policies one after the other, over one cache.

use crate::desk::Desk;
use crate::policies::{policy_with, puts};
use channel_uri::Channel;
use policy_core::{Act, Policy, Principals, Verdict};
use std::alloc::Global;

/// Principal 1 up to stream 9 by rule 1, everybody up to stream 99 by rule 2 the other way, and the default as rule 1.
fn policy(alloc: Global, allow: bool) -> Option<Policy> {
    let mut rules = Vec::new(alloc);
    let first = puts(&mut rules, (Principals::One(1), None, "*", 0, 9, allow));
    let second = puts(&mut rules, (Principals::Any, None, "*", 0, 99, !allow));
    policy_with(rules, first & second, allow)
}

/// A desk with no policy.
fn desk(alloc: Global) -> Option<Desk> {
    Desk::new(alloc, Channel::parse("aeron:ipc").ok()?).ok()
}

/// Subject, principal, the rule that decides, and whether its word is that of rule 1.
type Row = (u16, u32, Option<u32>, bool);

static ROWS: [Row; 6] = [
    (9, 1, Some(1), true),
    (10, 1, Some(2), false),
    (9, 2, Some(2), false),
    (99, 1, Some(2), false),
    (100, 1, None, true),
    (100, 2, None, true),
];

/// Whether the policy of this number, whose first rule allows or denies by `allow`, decides each row so, and twice.
fn are_decided(desk: &mut Desk, epoch: u64, allow: bool) -> bool {
    let mut same = true;
    for &(subject, principal, rule, as_first) in &ROWS {
        let wanted = Some(Verdict {
            allow: allow == as_first,
            rule,
            epoch,
        });
        same &= desk.ask(epoch, 0, subject, principal, Act::Offer) == wanted;
        same &= desk.ask(epoch, 0, subject, principal, Act::Offer) == wanted;
    }
    same
}

/// Whether a policy comes next, whose first rule allows or denies by `allow`. Without memory none does.
fn reloads(alloc: Global, desk: &mut Desk, allow: bool) -> bool {
    match policy(alloc, allow) {
        Some(policy) => desk.reload(policy).is_ok(),
        None => false,
    }
}

/// Whether two policies are asked in turn, as policies of the numbers from 1 to 4, and again under the first number.
fn are_in_turn(alloc: Global, desk: &mut Desk) -> bool {
    let mut same = true;
    for (epoch, allow) in [(1, true), (2, false), (3, true), (4, false)] {
        same &= reloads(alloc, desk, allow);
        same &= are_decided(desk, epoch, allow);
        same &= desk.held() as u64 == epoch.wrapping_mul(6);
    }
    same &= are_decided(desk, 1, true) & (desk.held() == 24);
    same & desk.ask(5, 0, 9, 1, Act::Offer).is_none() & desk.ask(0, 0, 9, 1, Act::Offer).is_none()
}

/// Whether policy 1 allows that or denies it, and so many verdicts are held then.
fn is_asked(
    desk: &mut Desk,
    subject: u16,
    principal: u32,
    act: Act,
    allow: bool,
    held: usize,
) -> bool {
    match desk.ask(1, 0, subject, principal, act) {
        Some(verdict) => (verdict.allow == allow) & (desk.held() == held),
        None => false,
    }
}

/// Subject, principal, act, whether it is allowed, and how many verdicts are held then.
static KEYS: [(u16, u32, Act, bool, usize); 5] = [
    (9, 1, Act::Offer, true, 1),
    (9, 1, Act::Offer, true, 1),
    (10, 1, Act::Offer, false, 2),
    (9, 2, Act::Offer, false, 3),
    (9, 1, Act::Receive, true, 4),
];

/// Whether what differs from a verdict that is held in one part of the key alone is decided anew, and the same is found.
fn are_told_apart(desk: &mut Desk) -> bool {
    let mut same = true;
    for &(subject, principal, act, allow, held) in &KEYS {
        same &= is_asked(desk, subject, principal, act, allow, held);
    }
    same
}

/// Whether 257 subjects leave 256 verdicts: the first one asked for has gone, and is decided anew, as it was.
fn are_at_most_256(desk: &mut Desk) -> bool {
    let mut same = true;
    for subject in 0..257u16 {
        let allow = subject <= 9 || subject >= 100;
        let held = usize::from(subject).wrapping_add(1).min(256);
        same &= is_asked(desk, subject, 1, Act::Offer, allow, held);
    }
    same & is_asked(desk, 0, 1, Act::Offer, true, 256)
}

/// What a desk shows.
#[derive(Clone, Copy)]
enum Case {
    // A verdict that is held is not decided by the policy that came after it, and none is thrown away.
    PoliciesInTurn,
    KeysAreToldApart,
    The257thVerdict,
}

/// Whether a desk without a policy goes as the case says.
fn goes(alloc: Global, desk: &mut Desk, case: Case) -> bool {
    match case {
        Case::PoliciesInTurn => are_in_turn(alloc, desk),
        Case::KeysAreToldApart => reloads(alloc, desk, true) && are_told_apart(desk),
        Case::The257thVerdict => reloads(alloc, desk, true) && are_at_most_256(desk),
    }
}

static CASES: [Case; 3] = [
    Case::PoliciesInTurn,
    Case::KeysAreToldApart,
    Case::The257thVerdict,
];

/// Whether a desk goes as the case says; false without memory.
fn is_shown(alloc: Global, case: Case) -> bool {
    match desk(alloc) {
        Some(mut desk) => {
            let so = goes(alloc, &mut desk, case);
            drop(desk);
            so
        }
        None => false,
    }
}

fn are_shown(alloc: Global, cases: &[Case]) -> bool {
    for &case in cases {
        if !is_shown(alloc, case) {
            return false;
        }
    }
    true
}

#[test]
fn desks_go_as_they_should(rt: HostRuntime) {
    assert!(rt; are_shown(rt.alloc(), &CASES));
}

/// Whether no verdict is another one than is wanted, however many of them found memory to be kept.
fn answers_stand(alloc: Global, desk: &mut Desk) -> bool {
    if !reloads(alloc, desk, true) || !reloads(alloc, desk, false) {
        return true;
    }
    let first = are_decided(desk, 1, true);
    let second = are_decided(desk, 2, false);
    first & second & are_decided(desk, 1, true)
}

fn all_answers_stand(alloc: Global) -> bool {
    match desk(alloc) {
        Some(mut desk) => {
            let stand = answers_stand(alloc, &mut desk);
            drop(desk);
            stand
        }
        None => true,
    }
}

// Where an allocation is refused there is no desk, or a verdict is not kept: no answer is another one.
#[test]
fn refused_stores_leave_the_answers(rt: HostRuntime) {
    assert!(rt; all_answers_stand(rt.alloc()));
}
