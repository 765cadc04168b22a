use crate::play::is_shown;
use policy_query::{DecideFault, Document, check, decide, principals};
use std::alloc::Global;

const OPEN: &[u8] = b"version = 1\ndefault = \"allow\"\n";

/// Whether the bytes are checked so.
fn is_checked(alloc: Global, policy: &[u8], text: &str) -> bool {
    let Ok(names) = principals(alloc) else {
        return false;
    };
    let Ok(document) = Document::read(alloc, policy) else {
        return false;
    };
    match check(alloc, &document, &names) {
        Ok(checked) => is_shown(alloc, &checked, text),
        Err(_) => false,
    }
}

/// Allows `spy` from the greatest moment on that a policy can name.
const LATE: &[u8] = b"version = 2
default = \"deny\"
[[rule]]
name = \"late\"
principal = \"p1\"
act = \"spy\"
channel = \"*\"
stream = [-1, -1]
from = 9223372036854775807
allow = true
";

/// Whether a question of p1 on that channel at that moment is answered so: by the verdict, or the fault.
fn is_answered(
    alloc: Global,
    policy: &[u8],
    channel: &str,
    stream: i32,
    moment: u64,
    text: &str,
) -> bool {
    let Ok(names) = principals(alloc) else {
        return false;
    };
    let Ok(document) = Document::read(alloc, policy) else {
        return false;
    };
    match decide(
        alloc, &document, &names, "p1", "spy", channel, stream, moment,
    ) {
        Ok(verdict) => is_shown(alloc, &verdict, text),
        Err(fault) => is_shown(alloc, &fault, text),
    }
}

/// A policy, a channel, a stream, a moment, an answer, and whether it is given so.
type Row = (&'static [u8], &'static str, i32, u64, &'static str, bool);

static ANSWERS: [Row; 6] = [
    (
        OPEN,
        "aeron:ipc",
        -2_147_483_648,
        u64::MAX,
        "allowed by default in policy 1",
        true,
    ),
    (
        OPEN,
        "aeron:tcp",
        -1,
        0,
        "allowed by default in policy 1",
        false,
    ),
    (OPEN, "aeron:tcp", -1, 0, "invalid channel", true),
    (
        LATE,
        "aeron:ipc",
        -1,
        9_223_372_036_854_775_806,
        "denied by default in policy 1",
        true,
    ),
    (
        LATE,
        "aeron:ipc",
        -1,
        9_223_372_036_854_775_807,
        "allowed by rule 1 in policy 1",
        true,
    ),
    (
        LATE,
        "aeron:ipc",
        -1,
        u64::MAX,
        "allowed by rule 1 in policy 1",
        true,
    ),
];

fn are_answered(alloc: Global, rows: &[Row]) -> bool {
    for &(policy, channel, stream, moment, text, wanted) in rows {
        if is_answered(alloc, policy, channel, stream, moment, text) != wanted {
            return false;
        }
    }
    true
}

/// The command line asks of no stream below 0 and of no moment from 2^63 on, and has no end of memory to show.
#[test]
fn ample_memory(rt: HostRuntime) {
    let checked = is_checked(rt.alloc(), OPEN, "ok: 0 rules")
        & !is_checked(rt.alloc(), OPEN, "ok: 1 rules");
    let told = is_shown(rt.alloc(), &DecideFault::NoMemory, "no memory");
    assert!(rt; checked & told & are_answered(rt.alloc(), &ANSWERS));
}
