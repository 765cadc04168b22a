use crate::faults::channel_fault;
use channel_uri::{Key, UriError};
use std::alloc::Global;

const ADDRESSES: [&str; 7] = [
    "0.0.0.0:1",
    "127.0.0.1:40123",
    "localhost:1",
    "localhost:65535",
    "223.255.255.255:65535",
    "240.0.0.0:1",
    "255.255.255.255:65535",
];

const BAD_ADDRESSES: [&str; 17] = [
    "224.0.0.0:1",
    "224.0.1.1:40123",
    "239.255.255.255:1",
    "256.0.0.1:1",
    "1.256.0.1:1",
    "1.0.256.1:1",
    "1.0.0.256:1",
    "1.2.3.4:0",
    "1.2.3.4:65536",
    "01.2.3.4:1",
    "1.02.3.4:1",
    "1.2.03.4:1",
    "1.2.3.04:1",
    "1.2.3.00:1",
    "1.2.3.4:01",
    "localhost:0",
    "localhost:01",
];

const NO_ADDRESSES: [&str; 21] = [
    "",
    ":",
    ":1",
    "1.2.3.4",
    "1.2.3.4:",
    "1.2.3:1",
    "1.2.3.4.5:1",
    "1..3.4:1",
    ".1.2.3.4:1",
    "1.2.3.4.:1",
    "1.2.3.4:1:1",
    "1.2.3.4:+1",
    "+1.2.3.4:1",
    "-1.2.3.4:1",
    "a.2.3.4:1",
    "1.2.3.4:a",
    " 1.2.3.4:1",
    "1.2.3.4:1 ",
    "1.2.3.4:18446744073709551617",
    "host:1",
    "[::1]:1",
];

const MTUS: [&str; 10] = [
    "64",
    "96",
    "1408",
    "65472",
    "65504",
    "1k",
    "1K",
    "63k",
    "0000000000000000000000000064",
    "01k",
];

const NO_MTUS: [&str; 30] = [
    "",
    "k",
    "0",
    "32",
    "63",
    "65",
    "80",
    "65503",
    "65505",
    "65536",
    "64k",
    "1m",
    "1M",
    "1g",
    "1G",
    "1t",
    "1kk",
    "1kb",
    "k1",
    "1 k",
    " 64",
    "+64",
    "-64",
    "6_4",
    "0x40",
    "1.0k",
    "18014398509481985k",
    "9223372036854775807",
    "9223372036854775808",
    "18446744073709551680",
];

const TERM_LENGTHS: [&str; 12] = [
    "65536", "64k", "64K", "131072", "128k", "1m", "1M", "8388608", "16777216", "16384k", "16m",
    "16M",
];

const NO_TERM_LENGTHS: [&str; 21] = [
    "",
    "m",
    "0",
    "1",
    "32768",
    "32k",
    "65535",
    "65537",
    "96k",
    "98304",
    "16777215",
    "16777217",
    "32m",
    "33554432",
    "1g",
    "1G",
    "-64k",
    "+64k",
    "64kB",
    "17592186044417m",
    "18446744073709617152",
];

const SESSION_IDS: [&str; 9] = [
    "-2147483648",
    "2147483647",
    "0",
    "-0",
    "1",
    "-1",
    "007",
    "-007",
    "00000000000000000000000000000001",
];

const NO_SESSION_IDS: [&str; 13] = [
    "",
    "-",
    "+1",
    "--1",
    "-+1",
    "1-",
    "1k",
    " 1",
    "-2147483649",
    "2147483648",
    "4294967296",
    "18446744073709551616",
    "-18446744073709551617",
];

const NO_LINGERS: [&str; 19] = [
    "",
    "s",
    "ns",
    "-1",
    "+1",
    "1m",
    "1h",
    "1S",
    "1MS",
    "1 s",
    "1nss",
    "1.5s",
    "9223372036854775808",
    "9223372036854775808ns",
    "9223372036854776us",
    "9223372036855ms",
    "9223372037s",
    "18446744074s",
    "18446744073709551616",
];

const NO_MODES: [&str; 7] = [
    "", "Manual", "manual ", "man", "manuals", "dynamics", "none",
];

const MODES_OF_OTHERS: [&str; 1] = ["response"];

const ANY: [&str; 3] = ["", "1", "127.0.0.1"];

/// A key, values of it that it takes, that are bad, and that are not served, and whether that is so.
type Row = (
    Key,
    &'static [&'static str],
    &'static [&'static str],
    &'static [&'static str],
    bool,
);

static VALUES: [Row; 13] = [
    (Key::Endpoint, &ADDRESSES, &BAD_ADDRESSES, &[], true),
    (Key::Endpoint, &[], &NO_ADDRESSES, &[], true),
    (Key::Control, &ADDRESSES, &BAD_ADDRESSES, &[], true),
    (Key::Mtu, &MTUS, &NO_MTUS, &[], true),
    (Key::TermLength, &TERM_LENGTHS, &NO_TERM_LENGTHS, &[], true),
    (Key::SessionId, &SESSION_IDS, &NO_SESSION_IDS, &[], true),
    (Key::Linger, &[], &NO_LINGERS, &[], true),
    (
        Key::ControlMode,
        &["manual", "dynamic"],
        &NO_MODES,
        &MODES_OF_OTHERS,
        true,
    ),
    (Key::Interface, &[], &[], &ANY, true),
    (Key::Tags, &[], &[], &ANY, true),
    (Key::Mtu, &["64", "65"], &[], &[], false),
    (Key::Mtu, &[], &["65", "64"], &[], false),
    (Key::Mtu, &[], &[], &["65"], false),
];

/// Whether the channel with this value of the key has this fault, or none.
fn is_found(alloc: Global, key: Key, value: &str, fault: Option<UriError>) -> bool {
    match format!(in alloc; "aeron:udp?{key}={value}") {
        Ok(text) => channel_fault(text.as_str()) == fault,
        Err(_) => false,
    }
}

fn are_found(alloc: Global, key: Key, values: &[&str], fault: Option<UriError>) -> bool {
    for &value in values {
        if !is_found(alloc, key, value, fault) {
            return false;
        }
    }
    true
}

fn follow_rules(alloc: Global, rows: &[Row]) -> bool {
    for &(key, taken, bad, others, wanted) in rows {
        let found = are_found(alloc, key, taken, None)
            && are_found(alloc, key, bad, Some(UriError::BadValue(key)))
            && are_found(alloc, key, others, Some(UriError::NotServed(key)));
        if found != wanted {
            return false;
        }
    }
    true
}

#[test]
fn values_follow_the_rules_of_their_keys(rt: HostRuntime) {
    assert!(rt; follow_rules(rt.alloc(), &VALUES));
}
