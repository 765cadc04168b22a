//! Tests of rules that stand for a time: in a policy, compiled, and where verdicts are kept.

use crate::desk::Desk;
use crate::policies::policy_with;
use byte_strings::ShortText;
use channel_uri::{Channel, Pattern};
use compiled_policy::Compiled;
use policy_core::{Act, Acts, Policy, Principals, Request, Rule, Verdict};
use std::alloc::Global;

/// The first moment at which a rule on everything stands, the one from which on it stands no more, and its word.
type Span = (Option<u64>, Option<u64>, bool);

static SPANS: [Span; 2] = [(Some(20), Some(30), false), (Some(10), Some(40), true)];

/// A moment, the rule that decides then, whether it is allowed, the least bound after it, and whether it is allowed then or later.
type Row = (u64, Option<u32>, bool, Option<u64>, bool);

static ROWS: [Row; 10] = [
    (0, None, false, Some(10), true),
    (9, None, false, Some(10), true),
    (10, Some(2), true, Some(20), true),
    (19, Some(2), true, Some(20), true),
    (20, Some(1), false, Some(30), true),
    (29, Some(1), false, Some(30), true),
    (30, Some(2), true, Some(40), true),
    (39, Some(2), true, Some(40), true),
    (40, None, false, None, false),
    (u64::MAX, None, false, None, false),
];

fn rule(span: Span) -> Option<Rule> {
    Some(Rule {
        name: ShortText::new("for a time"),
        principals: Principals::Any,
        acts: Acts::every(),
        channel: Pattern::parse("*").ok()?,
        low: i32::MIN,
        high: i32::MAX,
        from: span.0,
        until: span.1,
        allow: span.2,
    })
}

/// Whether the rule finds memory. It is the last one then.
fn puts(rules: &mut Vec<Rule>, span: Span) -> bool {
    match rule(span) {
        Some(rule) => rules.push(rule).is_ok(),
        None => false,
    }
}

/// Allows from 10 on and before 40, but not from 20 on and before 30.
fn policy(alloc: Global) -> Option<Policy> {
    let mut rules = Vec::new(alloc);
    let mut all = true;
    for &span in &SPANS {
        all &= puts(&mut rules, span);
    }
    policy_with(rules, all, false)
}

/// What policy 3 says at the row's moment.
fn verdict_of(row: Row) -> Verdict {
    Verdict {
        allow: row.2,
        rule: row.1,
        epoch: 3,
    }
}

/// Whether the policy says so at the moment, and goes on to the row's bound.
fn stands(policy: &Policy, request: &Request<'_>, row: Row) -> bool {
    let standing = policy.at(row.0);
    (policy.verdict(3, row.0, request) == verdict_of(row))
        & (standing.verdict(3, request) == verdict_of(row))
        & (policy.steady_until(row.0) == row.3)
        & (policy.ever(row.0, request) == row.4)
}

/// Whether the rule of the row, and no rule before it, matches as the policy stands then.
fn rule_matches(policy: &Policy, request: &Request<'_>, row: Row) -> bool {
    let standing = policy.at(row.0);
    if standing.len() != 2 {
        return false;
    }
    let first = standing.matches(0, request);
    let second = standing.matches(1, request);
    let words = !standing.word_of(0) & standing.word_of(1);
    words & (first == (row.1 == Some(1))) & ((first | second) == row.1.is_some())
}

/// Whether what the policy becomes for good says so at any moment.
fn settles(alloc: Global, policy: &Policy, request: &Request<'_>, row: Row) -> bool {
    match policy.copy(alloc) {
        Ok(mut settled) => {
            settled.settle(row.0);
            let same = (settled.settled_verdict(3, request) == verdict_of(row))
                & (settled.verdict(3, 25, request) == verdict_of(row))
                & settled.steady_until(0).is_none();
            drop(settled);
            same
        }
        Err(_) => false,
    }
}

/// Whether the compiled policy, made to stand as of the moment, says so, and stands so up to the row's bound and not at it.
fn compiled_stands(compiled: &mut Compiled, request: &Request<'_>, row: Row) -> bool {
    let at = compiled.verdict_at(row.0, request) == verdict_of(row);
    let bound = compiled.steady_until(row.0) == row.3;
    let ever = compiled.ever(row.0, request) == row.4;
    compiled.stand(row.0);
    let same = (compiled.verdict(request) == verdict_of(row)) & (compiled.as_of() == row.0);
    let steady = match row.3 {
        Some(bound) => {
            compiled.stands_so(bound.wrapping_sub(1))
                & !compiled.stands_so(bound)
                & !compiled.is_settled()
        }
        None => compiled.stands_so(u64::MAX) & compiled.is_settled(),
    };
    at & bound & ever & same & steady
}

fn policy_stands(alloc: Global, policy: &Policy) -> bool {
    let channel = Channel::ipc();
    let request = Request {
        principal: 1,
        act: Act::Image,
        channel: &channel,
        stream: 10,
    };
    let mut same = true;
    for &row in &ROWS {
        same &= stands(policy, &request, row) & rule_matches(policy, &request, row);
        same &= settles(alloc, policy, &request, row);
    }
    same
}

fn each_stands(compiled: &mut Compiled) -> bool {
    let channel = Channel::ipc();
    let request = Request {
        principal: 1,
        act: Act::Image,
        channel: &channel,
        stream: 10,
    };
    let mut same = true;
    for &row in &ROWS {
        same &= compiled_stands(compiled, &request, row);
    }
    same
}

/// Whether the compiled policy stands as of one moment after the other, the later ones first.
fn compiles(alloc: Global, policy: Policy) -> bool {
    match Compiled::build(alloc, policy, 3) {
        Ok(mut compiled) => {
            compiled.stand(u64::MAX);
            let same = each_stands(&mut compiled);
            drop(compiled);
            same
        }
        Err(_) => false,
    }
}

fn all_stand(alloc: Global) -> bool {
    match policy(alloc) {
        Some(policy) => {
            let stands = policy_stands(alloc, &policy);
            stands & compiles(alloc, policy)
        }
        None => false,
    }
}

#[test]
fn rules_stand_for_their_time(rt: HostRuntime) {
    assert!(rt; all_stand(rt.alloc()));
}

/// Whether a desk says so of policy 1 at each moment, and again, when so many more verdicts are held.
fn are_kept_apart(desk: &mut Desk) -> bool {
    let mut same = true;
    for &row in &ROWS {
        let held = desk.held();
        let wanted = Some(Verdict {
            epoch: 1,
            ..verdict_of(row)
        });
        same &= desk.ask(1, row.0, 9, 1, Act::Offer) == wanted;
        same &= desk.ask(1, row.0, 9, 1, Act::Offer) == wanted;
        same &= desk.held() == held.wrapping_add(1);
    }
    same
}

fn desk_of(alloc: Global) -> Option<Desk> {
    let mut desk = Desk::new(alloc, Channel::ipc()).ok()?;
    let reloaded = match policy(alloc) {
        Some(policy) => desk.reload(policy).is_ok(),
        None => false,
    };
    if reloaded {
        return Some(desk);
    }
    drop(desk);
    None
}

fn verdicts_are_kept_apart(alloc: Global) -> bool {
    match desk_of(alloc) {
        Some(mut desk) => {
            let same = are_kept_apart(&mut desk);
            drop(desk);
            same
        }
        None => false,
    }
}

// A verdict that was kept before a bound is none of the policy as it stands after it.
#[test]
fn kept_verdicts_end_at_bounds(rt: HostRuntime) {
    assert!(rt; verdicts_are_kept_apart(rt.alloc()));
}
