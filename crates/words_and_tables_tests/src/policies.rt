//! Tests of `policy_core`.

use byte_strings::ShortText;
use channel_uri::{Channel, Pattern, UriError};
use policy_core::{Act, Acts, Policy, Principals, Request, Rule, Verdict};
use rows::Twin;
use std::alloc::Global;

/// A rule: on whom, on which act or on each, on which channels, from and to which stream, and its word.
pub(crate) type Row = (Principals, Option<Act>, &'static str, i32, i32, bool);

/// A rule on these streams of a channel, about every act.
fn rule(
    principals: Principals,
    channel: &str,
    low: i32,
    high: i32,
    allow: bool,
) -> Result<Rule, UriError> {
    Ok(Rule {
        name: ShortText::new("a rule"),
        principals,
        acts: Acts::every(),
        channel: Pattern::parse(channel)?,
        low,
        high,
        from: None,
        until: None,
        allow,
    })
}

fn rule_of(row: Row) -> Option<Rule> {
    let mut made = rule(row.0, row.2, row.3, row.4, row.5).ok()?;
    if let Some(act) = row.1 {
        made.acts = Acts::none().with(act);
    }
    Some(made)
}

/// Whether the rule finds memory. It is the last one then.
pub(crate) fn puts(rules: &mut Vec<Rule>, row: Row) -> bool {
    match rule_of(row) {
        Some(rule) => rules.push(rule).is_ok(),
        None => false,
    }
}

/// The policy of these rules, which allows by default or denies, if all of them were put.
pub(crate) fn policy_with(rules: Vec<Rule>, all: bool, allow: bool) -> Option<Policy> {
    if !all || rules.len() > 1024 {
        return None;
    }
    Policy::new(rules, allow).ok()
}

/// What policy 3 says of the act of a principal on a stream of the channel.
fn answer(policy: &Policy, principal: u32, act: Act, channel: &Channel, stream: i32) -> Verdict {
    let request = Request {
        principal,
        act,
        channel,
        stream,
    };
    policy.verdict(3, 0, &request)
}

/// Denies principal 2 the streams 3 and 4 of shared memory.
fn of_ipc(alloc: Global) -> Option<Policy> {
    let mut rules = Vec::new(alloc);
    let put = puts(
        &mut rules,
        (Principals::One(2), None, "aeron:ipc", 3, 4, false),
    );
    policy_with(rules, put, true)
}

/// Whether the rule matches what the principal asks for on a stream of shared memory.
fn matches(rule: &Rule, principal: u32, stream: i32) -> bool {
    let channel = Channel::ipc();
    let request = Request {
        principal,
        act: Act::Image,
        channel: &channel,
        stream,
    };
    rule.matches(&request)
}

/// Whether the twin has this name and these streams, and matches these requests alone.
fn is_twin(twin: &Rule, name: &str, low: i32, high: i32) -> bool {
    let fields = (twin.name.as_str() == name)
        & (twin.low == low)
        & (twin.high == high)
        & !twin.allow;
    fields
        & twin.acts.hold(Act::Image)
        & matches(twin, 2, high)
        & !matches(twin, 3, high)
        & !matches(twin, 2, 5)
}

/// Whether a twin of that rule is this one, and not one of another name.
fn rule_is_twinned() -> bool {
    match rule(Principals::One(2), "aeron:ipc", 3, 4, false) {
        Ok(rule) => {
            let twin = rule.twin();
            is_twin(&twin, "a rule", 3, 4) & !is_twin(&twin, "a role", 3, 4)
        }
        Err(_) => false,
    }
}

/// Whether the policy allows by default and has so many rules, of which this one decides what the principal asks for.
fn decides(policy: &Policy, count: usize, principal: u32, by: Option<u32>) -> bool {
    let channel = Channel::ipc();
    policy.default_allows()
        & (policy.rules().len() == count)
        & (answer(policy, principal, Act::Image, &channel, 3).rule == by)
}

/// Of how many rules a copy is, who asks, which rule decides, and whether that is so.
type Copied = (usize, u32, Option<u32>, bool);

static COPIES: [Copied; 4] = [
    (1, 2, Some(1), true),
    (1, 3, None, true),
    (1, 3, Some(1), false),
    (2, 2, Some(1), false),
];

fn decide(policy: &Policy, rows: &[Copied]) -> bool {
    for &(count, principal, by, wanted) in rows {
        if decides(policy, count, principal, by) != wanted {
            return false;
        }
    }
    true
}

/// Whether a copy of the policy decides so.
fn copy_decides(alloc: Global, policy: &Policy) -> bool {
    match policy.copy(alloc) {
        Ok(copy) => {
            let so = decide(&copy, &COPIES);
            drop(copy);
            so
        }
        Err(_) => false,
    }
}

/// Whether a policy with nothing but room has no rule and denies, and decides so once it became equal to the other.
fn room_becomes(alloc: Global, policy: &Policy) -> bool {
    match Policy::room(alloc) {
        Ok(mut room) => {
            let denies = room.rules().is_empty() & !room.default_allows();
            room.set_from(policy);
            let so = decide(&room, &COPIES);
            drop(room);
            denies & so
        }
        Err(_) => false,
    }
}

fn policy_is_copied(alloc: Global) -> bool {
    match of_ipc(alloc) {
        Some(policy) => {
            let so = copy_decides(alloc, &policy) & room_becomes(alloc, &policy);
            drop(policy);
            so
        }
        None => false,
    }
}

#[test]
fn ample_memory(rt: HostRuntime) {
    assert!(rt; rule_is_twinned() & policy_is_copied(rt.alloc()));
}
