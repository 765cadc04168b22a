use crate::faults::pattern_fault;
use channel_uri::{Channel, Pattern, UriError};

/// Whether another pattern that became equal to this one covers counters.
fn other_covers(pattern: &Pattern, counter: &Channel) -> bool {
    match Pattern::parse("aeron:udp?a=1") {
        Ok(mut other) => {
            other.set_from(pattern);
            other.covers(counter)
        }
        Err(_) => false,
    }
}

/// Whether copies of the pattern of the text cover counters or not, as is wanted.
fn copies_cover_counters(text: &str, wanted: bool) -> bool {
    let counter = Channel::counter();
    match Pattern::parse(text) {
        Ok(pattern) => {
            pattern.copy().covers(&counter) == wanted && other_covers(&pattern, &counter) == wanted
        }
        Err(_) => false,
    }
}

/// Texts, why each is no pattern, if it is none, and whether that is so. Values are not checked.
static PATTERNS: [(&str, Option<UriError>, bool); 12] = [
    ("aeron:udp?mtu=1*", None, true),
    ("aeron:udp?mtu=x", None, true),
    ("aeron:udp?tags=*", None, true),
    ("aeron:udp?control-mode=dynamic", None, true),
    ("aeron:ipc?endpoint=224.0.1.1:1|session-id=", None, true),
    ("aeron:udp?mtu=x|=", Some(UriError::EmptyKey), true),
    ("aeron:udp?endpoint", Some(UriError::KeyWithoutValue), true),
    ("aeron:tcp?mtu=x", Some(UriError::BadMedia), true),
    ("aeron-spy:aeron:udp", Some(UriError::NoScheme), true),
    ("**", Some(UriError::NoScheme), true),
    ("**", None, false),
    ("*", Some(UriError::NoScheme), false),
];

fn are_found(rows: &[(&str, Option<UriError>, bool)]) -> bool {
    for &(text, fault, wanted) in rows {
        if (pattern_fault(text) == fault) != wanted {
            return false;
        }
    }
    true
}

#[test]
fn patterns_cover_counters_and_check_no_values(rt: HostRuntime) {
    let cover = copies_cover_counters("aeron:counter", true);
    assert!(rt; cover & copies_cover_counters("aeron:ipc", false) & are_found(&PATTERNS));
}
