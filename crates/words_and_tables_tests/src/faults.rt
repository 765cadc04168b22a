use channel_uri::{Channel, Key, Pattern, UriError};
use std::alloc::Global;
use std::fmt;

/// Why the text is no channel; none where it is one.
pub(crate) fn channel_fault(text: &str) -> Option<UriError> {
    match Channel::parse(text) {
        Ok(_) => None,
        Err(fault) => Some(fault),
    }
}

/// Why the text is no pattern; none where it is one.
pub(crate) fn pattern_fault(text: &str) -> Option<UriError> {
    match Pattern::parse(text) {
        Ok(_) => None,
        Err(fault) => Some(fault),
    }
}

/// Whether each text has the fault after it.
fn are_faulty(rows: &[(&str, UriError)]) -> bool {
    for &(text, fault) in rows {
        if channel_fault(text) != Some(fault) {
            return false;
        }
    }
    true
}

static FAULTS: [(&str, UriError); 7] = [
    ("aeron:udp?", UriError::EmptyKey),
    ("aeron:udp?=x", UriError::EmptyKey),
    ("aeron:udp?endpoint", UriError::KeyWithoutValue),
    ("udp", UriError::NoScheme),
    ("aeron:tcp", UriError::BadMedia),
    (
        "aeron:udp?endpoint=224.0.1.1:40123",
        UriError::BadValue(Key::Endpoint),
    ),
    ("aeron:udp?tags=1", UriError::NotServed(Key::Tags)),
];

/// The syntax is read from the left; of the values that are kept, the bad one whose key is first in byte order is named.
static FIRST_FAULTS: [(&str, UriError); 28] = [
    ("aeron:udp?a=1|", UriError::EmptyKey),
    ("aeron:udp?a=1|b|=", UriError::KeyWithoutValue),
    ("aeron:udp?a=1|=|b", UriError::EmptyKey),
    ("", UriError::NoScheme),
    ("aeron-spy:udp", UriError::NoScheme),
    ("aeron", UriError::NoScheme),
    ("aeron:", UriError::BadMedia),
    ("aeron:udp|a=1", UriError::BadMedia),
    ("aeron:tcp?=", UriError::BadMedia),
    ("aeron:counter", UriError::BadMedia),
    ("aeron-spy:aeron:ipc", UriError::BadMedia),
    ("aeron:udp?mtu=1|=", UriError::EmptyKey),
    ("aeron:udp?mtu=1|endpoint", UriError::KeyWithoutValue),
    ("aeron:udp?mtu=1408|mtu=1", UriError::BadValue(Key::Mtu)),
    (
        "aeron:udp?control-mode=x|control=x",
        UriError::BadValue(Key::Control),
    ),
    (
        "aeron:udp?endpoint=x|control-mode=x",
        UriError::BadValue(Key::ControlMode),
    ),
    (
        "aeron:udp?interface=x|endpoint=x",
        UriError::BadValue(Key::Endpoint),
    ),
    (
        "aeron:udp?linger=x|interface=x",
        UriError::NotServed(Key::Interface),
    ),
    ("aeron:udp?mtu=x|linger=x", UriError::BadValue(Key::Linger)),
    ("aeron:udp?session-id=x|mtu=x", UriError::BadValue(Key::Mtu)),
    (
        "aeron:udp?tags=x|session-id=x",
        UriError::BadValue(Key::SessionId),
    ),
    (
        "aeron:udp?term-length=x|tags=x",
        UriError::NotServed(Key::Tags),
    ),
    (
        "aeron:udp?zone=x|term-length=x",
        UriError::BadValue(Key::TermLength),
    ),
    (
        "aeron:udp?endpoint=localhost",
        UriError::BadValue(Key::Endpoint),
    ),
    (
        "aeron:udp?endpoint=localhost:",
        UriError::BadValue(Key::Endpoint),
    ),
    (
        "aeron:udp?endpoint=localhost:localhost:1",
        UriError::BadValue(Key::Endpoint),
    ),
    (
        "aeron:udp?endpoint=Localhost:1",
        UriError::BadValue(Key::Endpoint),
    ),
    (
        "aeron:udp?endpoint=xlocalhost:1",
        UriError::BadValue(Key::Endpoint),
    ),
];

/// Whether letters after the text find memory, up to so many bytes in all.
fn fills(text: &mut String, len: usize) -> bool {
    let mut filled = true;
    for _ in text.len()..len {
        filled &= text.push_str("x").is_ok();
    }
    filled
}

/// The head of a text, the length to which it is filled, what is wrong with the text as a
/// channel and as a pattern, and whether that is so.
type Length = (
    &'static str,
    usize,
    Option<UriError>,
    Option<UriError>,
    bool,
);

static LENGTHS: [Length; 10] = [
    ("aeron:udp?a=", 1024, None, None, true),
    (
        "aeron:udp?a=",
        1025,
        Some(UriError::TooLong),
        Some(UriError::TooLong),
        true,
    ),
    (
        "aeron:udp?=a",
        1024,
        Some(UriError::EmptyKey),
        Some(UriError::EmptyKey),
        true,
    ),
    (
        "aeron:udp?=a",
        1025,
        Some(UriError::TooLong),
        Some(UriError::TooLong),
        true,
    ),
    (
        "aeron:udp?mtu=x",
        1024,
        Some(UriError::BadValue(Key::Mtu)),
        None,
        true,
    ),
    (
        "aeron:udp?mtu=x",
        1025,
        Some(UriError::TooLong),
        Some(UriError::TooLong),
        true,
    ),
    (
        "udp",
        1024,
        Some(UriError::NoScheme),
        Some(UriError::NoScheme),
        true,
    ),
    (
        "udp",
        1025,
        Some(UriError::TooLong),
        Some(UriError::TooLong),
        true,
    ),
    ("aeron:udp?a=", 1024, None, Some(UriError::TooLong), false),
    ("aeron:udp?a=", 1024, Some(UriError::TooLong), None, false),
];

fn has_faults(text: &mut String, row: Length) -> bool {
    let filled = fills(text, row.1);
    let found = (channel_fault(text.as_str()) == row.2) & (pattern_fault(text.as_str()) == row.3);
    filled & (found == row.4)
}

fn is_found(alloc: Global, row: Length) -> bool {
    match String::from_str(alloc, row.0) {
        Ok(mut text) => has_faults(&mut text, row),
        Err(_) => false,
    }
}

/// The length is looked at first.
fn are_found(alloc: Global, rows: &[Length]) -> bool {
    for &row in rows {
        if !is_found(alloc, row) {
            return false;
        }
    }
    true
}

#[test]
fn channel_faults(rt: HostRuntime) {
    let faulty = are_faulty(&FAULTS) & are_faulty(&FIRST_FAULTS);
    let other = are_faulty(&[("aeron:udp?=x", UriError::KeyWithoutValue)]);
    assert!(rt; faulty & !other & are_found(rt.alloc(), &LENGTHS));
}

/// Whether the value is written as this text.
fn is_shown<T: fmt::Display>(alloc: Global, value: &T, text: &str) -> bool {
    match value.to_string(alloc) {
        Ok(shown) => shown.as_str() == text,
        Err(_) => false,
    }
}

/// A fault, a text, and whether the fault has it.
static FAULT_TEXTS: [(UriError, &str, bool); 8] = [
    (UriError::TooLong, "longer than 1,024 bytes", true),
    (UriError::NoScheme, "no scheme aeron:", true),
    (UriError::BadMedia, "bad media", true),
    (UriError::BadMedia, "bad medium", false),
    (UriError::EmptyKey, "empty key", true),
    (UriError::KeyWithoutValue, "key without value", true),
    (
        UriError::BadValue(Key::TermLength),
        "bad value of term-length",
        true,
    ),
    (
        UriError::NotServed(Key::ControlMode),
        "not served: control-mode",
        true,
    ),
];

fn are_shown(alloc: Global, rows: &[(UriError, &str, bool)]) -> bool {
    for &(fault, text, wanted) in rows {
        if is_shown(alloc, &fault, text) != wanted {
            return false;
        }
    }
    true
}

/// A key, a text, and whether the key has it, and no other key does.
static KEY_TEXTS: [(Key, &str, bool); 10] = [
    (Key::Endpoint, "endpoint", true),
    (Key::Control, "control", true),
    (Key::Mtu, "mtu", true),
    (Key::TermLength, "term-length", true),
    (Key::SessionId, "session-id", true),
    (Key::Linger, "linger", true),
    (Key::ControlMode, "control-mode", true),
    (Key::Interface, "interface", true),
    (Key::Tags, "tags", true),
    (Key::Tags, "tag", false),
];

fn are_called(alloc: Global, rows: &[(Key, &str, bool)]) -> bool {
    for &(key, text, wanted) in rows {
        let called = is_shown(alloc, &key, text) & (Key::from_text(text) == Some(key));
        if called != wanted {
            return false;
        }
    }
    true
}

#[test]
fn faults_and_keys_have_texts(rt: HostRuntime) {
    let shown = are_shown(rt.alloc(), &FAULT_TEXTS) & are_called(rt.alloc(), &KEY_TEXTS);
    assert!(rt; shown & Key::from_text("ttl").is_none());
}
