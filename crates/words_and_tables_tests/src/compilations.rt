//! Tests of `compiled_policy`. What is large is let go by a call, which costs the proof less than the end of a scope.

use crate::policies::{Row, policy_with, puts};
use channel_uri::Channel;
use compiled_policy::Compiled;
use policy_core::{Act, Policy, Principals, Request};
use std::alloc::Global;

const ALL: Principals = Principals::Any;

const ONE: Principals = Principals::One(1);

/// Of another principal, which is in the group of the first.
const FAR: Principals = Principals::One(1025);

/// Rules of every kind of group, whose order matters.
static RULES: [Row; 9] = [
    (ONE, Some(Act::Publish), "aeron:ipc", 10, 10, false),
    (FAR, None, "*", 10, 10, true),
    (ALL, None, "aeron:udp?endpoint=127.0.0.1:4*", 10, 10, false),
    (ONE, None, "*", 0, 20, true),
    (FAR, None, "aeron:udp", 0, 9, true),
    (ALL, Some(Act::Subscribe), "aeron:ipc", -9, 9, true),
    (ALL, None, "aeron:ipc", 10, 10, true),
    (ALL, Some(Act::Counter), "aeron:counter", 0, 1034, true),
    (ALL, None, "*", 1034, 1034, true),
];

/// The same rules, but for the word of one of them.
static OTHER_RULES: [Row; 9] = [
    (ONE, Some(Act::Publish), "aeron:ipc", 10, 10, false),
    (FAR, None, "*", 10, 10, true),
    (ALL, None, "aeron:udp?endpoint=127.0.0.1:4*", 10, 10, false),
    (ONE, None, "*", 0, 20, true),
    (FAR, None, "aeron:udp", 0, 9, true),
    (ALL, Some(Act::Subscribe), "aeron:ipc", -9, 9, false),
    (ALL, None, "aeron:ipc", 10, 10, true),
    (ALL, Some(Act::Counter), "aeron:counter", 0, 1034, true),
    (ALL, None, "*", 1034, 1034, true),
];

/// A list of rules.
#[derive(Clone, Copy)]
enum List {
    Rules,
    OtherRules,
    Nothing,
}

fn rows_of(list: List) -> &'static [Row] {
    match list {
        List::Rules => &RULES,
        List::OtherRules => &OTHER_RULES,
        List::Nothing => &[],
    }
}

fn policy_of(alloc: Global, list: List) -> Option<Policy> {
    let mut rules = Vec::new(alloc);
    let mut all = true;
    for &row in rows_of(list) {
        all &= puts(&mut rules, row);
    }
    policy_with(rules, all, false)
}

/// A policy of 1,024 rules, each of which allows its own stream, from 0.
fn full(alloc: Global) -> Option<Policy> {
    let mut rules = Vec::new(alloc);
    let mut all = true;
    for stream in 0..1024 {
        all &= puts(&mut rules, (ALL, None, "*", stream, stream, true));
    }
    policy_with(rules, all, false)
}

/// Who asks, for which act, on which channel and stream, and the number of the rule that decides.
type Asked = (u32, Act, &'static str, i32, Option<u32>);

static REQUESTS: [Asked; 14] = [
    (1, Act::Publish, "aeron:ipc", 10, Some(1)),
    (1, Act::Subscribe, "aeron:ipc", 10, Some(4)),
    (1025, Act::Publish, "aeron:ipc", 10, Some(2)),
    (2, Act::Publish, "aeron:ipc", 10, Some(7)),
    (
        2,
        Act::Publish,
        "aeron:udp?endpoint=127.0.0.1:4000",
        10,
        Some(3),
    ),
    (
        2,
        Act::Publish,
        "aeron:udp?endpoint=127.0.0.1:5000",
        10,
        None,
    ),
    (
        1,
        Act::Publish,
        "aeron:udp?endpoint=127.0.0.1:4000",
        11,
        Some(4),
    ),
    (
        1025,
        Act::Offer,
        "aeron:udp?endpoint=127.0.0.1:4000",
        9,
        Some(5),
    ),
    (
        1025,
        Act::Offer,
        "aeron:udp?endpoint=127.0.0.1:4000",
        11,
        None,
    ),
    (2, Act::Subscribe, "aeron:ipc", -9, Some(6)),
    (2, Act::Spy, "aeron:ipc", -9, None),
    (2, Act::Subscribe, "aeron:ipc", -10, None),
    (2, Act::Subscribe, "aeron:ipc", 1034, Some(9)),
    (2, Act::Subscribe, "aeron:ipc", -2147483648, None),
];

/// Whether the compiled policy decides the request as the policy does under this number, and by the rule that it names.
fn agrees(compiled: &Compiled, policy: &Policy, epoch: u64, asked: &Asked) -> Option<bool> {
    let channel = Channel::parse(asked.2).ok()?;
    let request = Request {
        principal: asked.0,
        act: asked.1,
        channel: &channel,
        stream: asked.3,
    };
    let verdict = compiled.verdict(&request);
    Some((verdict == policy.verdict(epoch, 0, &request)) & (verdict.rule == asked.4))
}

fn all_agree(compiled: &Compiled, policy: &Policy, epoch: u64) -> Option<bool> {
    let mut same = true;
    for asked in &REQUESTS {
        same &= agrees(compiled, policy, epoch, asked)?;
    }
    Some(same)
}

/// What is compiled of the policy under this number.
fn built(alloc: Global, policy: Option<Policy>, epoch: u64) -> Option<Compiled> {
    Compiled::build(alloc, policy?, epoch).ok()
}

/// Whether it was another policy before; the list that is compiled, under the number 3; the one that it is held against,
/// and under which number; and whether the two agree.
type Compared = (bool, List, List, u64, bool);

static COMPARED: [Compared; 6] = [
    (false, List::Rules, List::Rules, 3, true),
    (false, List::Rules, List::Rules, 4, false),
    (false, List::Rules, List::OtherRules, 3, false),
    (false, List::Rules, List::Nothing, 3, false),
    (true, List::Rules, List::Rules, 3, true),
    (true, List::OtherRules, List::Rules, 3, false),
];

/// Whether the policy is there, and agrees as the row says.
fn agrees_so(alloc: Global, compiled: &Compiled, row: Compared) -> bool {
    match policy_of(alloc, row.2) {
        Some(policy) => {
            let agrees = all_agree(compiled, &policy, row.3) == Some(row.4);
            drop(policy);
            agrees
        }
        None => false,
    }
}

/// Whether what has become the compiled rules, and was a policy of 1,024 rules before, agrees as the row says.
fn is_turned(alloc: Global, compiled: &Compiled, row: Compared) -> bool {
    match built(alloc, full(alloc), 1) {
        Some(mut turned) => {
            turned.set_from(compiled);
            let agrees = agrees_so(alloc, &turned, row);
            drop(turned);
            agrees
        }
        None => false,
    }
}

fn is_compared(alloc: Global, row: Compared) -> bool {
    match built(alloc, policy_of(alloc, row.1), 3) {
        Some(compiled) => {
            let agrees = if row.0 {
                is_turned(alloc, &compiled, row)
            } else {
                agrees_so(alloc, &compiled, row)
            };
            drop(compiled);
            agrees
        }
        None => false,
    }
}

fn are_compared(alloc: Global, rows: &[Compared]) -> bool {
    for &row in rows {
        if !is_compared(alloc, row) {
            return false;
        }
    }
    true
}

#[test]
fn compiled_rules_agree(rt: HostRuntime) {
    assert!(rt; are_compared(rt.alloc(), &COMPARED));
}

/// Whether the stream is decided by this rule.
fn is_by(compiled: &Compiled, stream: i32, by: Option<u32>) -> bool {
    let channel = Channel::counter();
    let request = Request {
        principal: 9,
        act: Act::List,
        channel: &channel,
        stream,
    };
    compiled.verdict(&request).rule == by
}

/// A stream, a rule, and whether the policy of 1,024 rules decides the stream by the rule.
static STREAMS: [(i32, Option<u32>, bool); 4] = [
    (0, Some(1), true),
    (1023, Some(1024), true),
    (1024, None, true),
    (1022, Some(1024), false),
];

/// Whether it is empty and decides no stream.
fn is_room(compiled: &Compiled) -> bool {
    let mut none = compiled.epoch() == 0;
    for &(stream, _, _) in &STREAMS {
        none &= is_by(compiled, stream, None);
    }
    none
}

fn is_full(compiled: &Compiled) -> bool {
    let mut same = (compiled.policy().len() == 1024) & (compiled.epoch() == 5);
    for &(stream, by, wanted) in &STREAMS {
        same &= is_by(compiled, stream, by) == wanted;
    }
    same
}

fn copy_is_full(alloc: Global, compiled: &Compiled) -> bool {
    match compiled.copy(alloc) {
        Ok(copy) => {
            let full = is_full(&copy);
            drop(copy);
            full
        }
        Err(_) => false,
    }
}

/// Whether what has become the policy decides its streams, and its copy too.
fn fills(alloc: Global, compiled: &mut Compiled, policy: &Policy) -> bool {
    let empty = is_room(compiled);
    compiled.compile(policy, 5, 0);
    empty & is_full(compiled) & copy_is_full(alloc, compiled)
}

fn room_fills(alloc: Global, policy: &Policy) -> bool {
    match Compiled::room(alloc) {
        Ok(mut compiled) => {
            let filled = fills(alloc, &mut compiled, policy);
            drop(compiled);
            filled
        }
        Err(_) => false,
    }
}

fn full_decides(alloc: Global) -> bool {
    match full(alloc) {
        Some(policy) => {
            let filled = room_fills(alloc, &policy);
            drop(policy);
            filled
        }
        None => false,
    }
}

#[test]
fn ample_memory(rt: HostRuntime) {
    assert!(rt; full_decides(rt.alloc()));
}
