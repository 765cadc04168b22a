//! Tests of `policy_text` that no script can say: what is read is kept as the text says.

use byte_strings::Text;
use policy_core::Policy;
use policy_text::{Field, Names, PolicyFault, read};
use std::alloc::Global;

/// Whether the name finds memory. It is known then.
fn adds(alloc: Global, names: &mut Names, name: &str, number: u32) -> bool {
    match Text::new(alloc, name) {
        Ok(text) => names.add(text, number).is_ok(),
        Err(_) => false,
    }
}

/// `alice` (7) and `bob` (8), and alice once more.
static KNOWN: [(&str, u32); 3] = [("alice", 7), ("bob", 8), ("alice", 9)];

fn adds_all(alloc: Global, names: &mut Names) -> bool {
    let mut added = true;
    for &(name, number) in &KNOWN {
        added &= adds(alloc, names, name, number);
    }
    added
}

/// A name, a number, and whether the name has this number.
static NUMBERS: [(&str, Option<u32>, bool); 5] = [
    ("nobody", Some(0), true),
    ("alice", Some(7), true),
    ("bob", Some(8), true),
    ("carol", None, true),
    ("alice", Some(9), false),
];

fn are_numbered(names: &Names) -> bool {
    let mut same = true;
    for &(name, number, wanted) in &NUMBERS {
        same &= (names.number_of(name) == number) == wanted;
    }
    same
}

/// Whether a text without a line has this fault.
fn is_refused(alloc: Global, names: &Names, fault: PolicyFault) -> bool {
    match read(alloc, " # nothing", names) {
        Ok(_) => false,
        Err(found) => found == fault,
    }
}

/// Whether the policy denies by default, and has one rule, of this name, which allows these streams.
fn allows_streams(policy: &Policy, name: &str, low: i32, high: i32) -> bool {
    match policy.rules() {
        [rule] => {
            (rule.name.as_str() == name)
                & (rule.low == low)
                & (rule.high == high)
                & rule.allow
                & !policy.default_allows()
        }
        _ => false,
    }
}

const OF_BOB: &str = "version = 1
default = \"deny\"
[[rule]]
name = \"r\"
principal = \"bob\"
act = \"list\"
channel = \"aeron:counter\"
stream = [100, 199]
allow = true
";

/// Whether the rule on bob is read.
fn bob_allows_streams(alloc: Global, names: &Names, low: i32, high: i32) -> bool {
    match read(alloc, OF_BOB, names) {
        Ok(policy) => allows_streams(&policy, "r", low, high),
        Err(_) => false,
    }
}

fn texts_are_read(alloc: Global, names: &Names) -> bool {
    let version = is_refused(alloc, names, PolicyFault::BadVersion);
    let syntax = is_refused(alloc, names, PolicyFault::NotToml);
    let streams = bob_allows_streams(alloc, names, 100, 199);
    let others = bob_allows_streams(alloc, names, 100, 198);
    version & !syntax & streams & !others
}

/// Whether names are known, and texts are read where they are.
fn are_known(alloc: Global) -> bool {
    let mut names = Names::new(alloc);
    adds_all(alloc, &mut names) & are_numbered(&names) & texts_are_read(alloc, &names)
}

#[test]
fn ample_memory(rt: HostRuntime) {
    assert!(rt; are_known(rt.alloc()) & (Field::Stream.name() == "stream"));
}
