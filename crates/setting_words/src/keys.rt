/// What the value of a setting is.
#[derive(Clone, Copy, Debug, PartialEq, Eq)]
pub enum Kind {
    /// A duration, which may be 0.
    Duration,
    /// A duration without which a driver is of no use where it is 0: all that it bounds would be over at once, or be done
    /// without a pause.
    Time,
    /// A size in bytes.
    Size,
    /// A number without a unit.
    Number,
    /// An address with a port.
    Address,
}

/// The settings, each with what its value is and what is wanted of it.
pub const KEYS: [(&str, Kind, &str); 19] = [
    ("client-liveness", Kind::Time, TIME),
    ("image-liveness", Kind::Time, TIME),
    ("linger", Kind::Duration, DURATION),
    ("connection-timeout", Kind::Time, TIME),
    ("destination-timeout", Kind::Time, TIME),
    ("resend-linger", Kind::Duration, DURATION),
    ("nak-delay", Kind::Duration, DURATION),
    ("nak-repeat", Kind::Time, TIME),
    ("setup-interval", Kind::Time, TIME),
    ("heartbeat-interval", Kind::Time, TIME),
    ("status-interval", Kind::Time, TIME),
    (
        "term-length",
        Kind::Size,
        "wanted a power of two from 64k to 16m",
    ),
    (
        "mtu",
        Kind::Size,
        "wanted a multiple of 32 from 64 to 65504, as 1408 or 8k",
    ),
    (
        "arena-pages",
        Kind::Number,
        "wanted a number from 1 to 65536",
    ),
    (
        "images-per-source",
        Kind::Number,
        "wanted a number from 1 to 512",
    ),
    ("first-session", Kind::Number, ID),
    ("initial-term", Kind::Number, ID),
    (
        "receiver-id",
        Kind::Number,
        "wanted a number from 0 to 18446744073709551615",
    ),
    (
        "send-address",
        Kind::Address,
        "wanted an IPv4 address and a port, as 127.0.0.1:40000",
    ),
];

const DURATION: &str = "wanted a duration below 2^63 ns, as 500ms, 2s or 0";

const TIME: &str = "wanted a duration above 0 and below 2^63 ns, as 500ms or 2s";

const ID: &str = "wanted a number from -2147483648 to 2147483647";

/// What the value of the setting of that name is, and what is wanted of it; `None` where there is no such setting.
pub fn kind_of(name: &str) -> Option<(Kind, &'static str)> {
    for (key, kind, wanted) in &KEYS {
        if *key == name {
            return Some((*kind, *wanted));
        }
    }
    None
}
