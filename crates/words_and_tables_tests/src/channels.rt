use channel_uri::{Address, Channel, Media, Place};
use std::alloc::Global;

const TWICE: &str = "aeron-spy:aeron:udp?a=1|b=x=y|c=|a=2";

const STATED: &str =
    "aeron:udp?control=10.0.0.2:7|control-mode=manual|endpoint=localhost:40123|linger=2ms|mtu=8k|session-id=-7|term-length=1M";

/// What the channel of a text states: the endpoint, `control`, the session, the mtu, the term length, the linger in
/// nanoseconds, and whether destinations are named by hand.
type Stated = (
    Option<Address>,
    Option<Address>,
    Option<i32>,
    Option<u32>,
    Option<u32>,
    Option<u64>,
    bool,
);

const ENDPOINT: Option<Address> = Some(Address {
    octets: [127, 0, 0, 1],
    port: 40123,
});

const CONTROL: Option<Address> = Some(Address {
    octets: [10, 0, 0, 2],
    port: 7,
});

/// What a channel shows.
#[derive(Clone, Copy)]
enum Case {
    /// Its one text.
    Text(&'static str),
    /// The value of a key.
    Value(&'static str, Option<&'static str>),
    TermLength(Option<u32>),
    SpyOfUdp,
    States(Stated),
    /// Its session, and how long it lingers.
    Numbers(Option<i32>, Option<u64>),
    /// Its place: the address of the endpoint, or a word for another one.
    Place(Option<&'static str>),
}

/// The address of the endpoint, or a word for another place.
fn word_of<'a>(place: Option<Place<'a>>) -> Option<&'a str> {
    match place {
        Some(Place::Ipc) => Some("ipc"),
        Some(Place::Manual) => Some("manual"),
        Some(Place::Control(address)) => Some(address),
        Some(Place::Endpoint(address)) => Some(address),
        None => None,
    }
}

/// Whether the channel is written so.
fn is_written(alloc: Global, channel: &Channel, wanted: &str) -> bool {
    match channel.canonical(alloc) {
        Ok(text) => text.as_str() == wanted,
        Err(_) => false,
    }
}

/// Whether another channel that became equal to this one is written so.
fn other_is_written(alloc: Global, channel: &Channel, wanted: &str) -> bool {
    match Channel::parse("aeron:ipc?z=1") {
        Ok(mut other) => {
            other.set_from(channel);
            is_written(alloc, &other, wanted)
        }
        Err(_) => false,
    }
}

fn is_stated(channel: &Channel, wanted: Stated) -> bool {
    let (endpoint, control, session, mtu, term_length, linger, manual) = wanted;
    (channel.endpoint() == endpoint)
        & (channel.control() == control)
        & (channel.session_id() == session)
        & (channel.mtu() == mtu)
        & (channel.term_length() == term_length)
        & (channel.linger() == linger)
        & (channel.is_manual() == manual)
}

fn shows(alloc: Global, channel: &Channel, case: Case) -> bool {
    match case {
        Case::Text(wanted) => {
            is_written(alloc, &channel.copy(), wanted) & other_is_written(alloc, channel, wanted)
        }
        Case::Value(key, value) => channel.get(key) == value,
        Case::TermLength(length) => channel.term_length() == length,
        Case::SpyOfUdp => channel.is_spy() & (channel.media() == Media::Udp),
        Case::States(wanted) => is_stated(channel, wanted),
        Case::Numbers(session, linger) => {
            (channel.session_id() == session) & (channel.linger() == linger)
        }
        Case::Place(wanted) => word_of(channel.place()) == wanted,
    }
}

/// The text of a channel, what the channel shows, and whether it does.
type Row = (&'static str, Case, bool);

/// Whether the channel of the text shows that; where the text is no channel nothing does.
fn is_shown(alloc: Global, row: Row) -> bool {
    match Channel::parse(row.0) {
        Ok(channel) => shows(alloc, &channel, row.1) == row.2,
        Err(_) => false,
    }
}

fn are_shown(alloc: Global, rows: &[Row]) -> bool {
    for &row in rows {
        if !is_shown(alloc, row) {
            return false;
        }
    }
    true
}

/// Channels of no text.
fn others_are_so(alloc: Global) -> bool {
    let ipc = Channel::ipc();
    let written = is_written(alloc, &ipc, "aeron:ipc") & !is_written(alloc, &ipc, "aeron:udp");
    written & Channel::counter().place().is_none()
}

static ROWS: [Row; 24] = [
    (TWICE, Case::Text("aeron-spy:aeron:udp?a=2|b=x=y|c="), true),
    (TWICE, Case::Text("aeron-spy:aeron:udp?a=1|b=x=y|c="), false),
    (
        "aeron:udp?name=localhost:1|endpoint=localhost:40123|control=localhost:1",
        Case::Text("aeron:udp?control=127.0.0.1:1|endpoint=127.0.0.1:40123|name=localhost:1"),
        true,
    ),
    // Keys without a rule are kept.
    (
        "aeron:udp?Endpoint=x|alias=|endpoints=y|mtus=1|ttl=z",
        Case::Text("aeron:udp?Endpoint=x|alias=|endpoints=y|mtus=1|ttl=z"),
        true,
    ),
    (TWICE, Case::SpyOfUdp, true),
    ("aeron:udp?a=1", Case::SpyOfUdp, false),
    // The last value of a key stands.
    (TWICE, Case::Value("a", Some("2")), true),
    (TWICE, Case::Value("a", Some("1")), false),
    (TWICE, Case::Value("b", Some("x=y")), true),
    (TWICE, Case::Value("c", Some("")), true),
    (TWICE, Case::Value("d", None), true),
    (
        STATED,
        Case::States((
            ENDPOINT,
            CONTROL,
            Some(-7),
            Some(8192),
            Some(1_048_576),
            Some(2_000_000),
            true,
        )),
        true,
    ),
    (
        STATED,
        Case::States((
            ENDPOINT,
            CONTROL,
            Some(-7),
            Some(8192),
            Some(1_048_576),
            Some(2_000_001),
            true,
        )),
        false,
    ),
    // Only the value that is kept is checked.
    (
        "aeron:udp?mtu=1|mtu=1408",
        Case::States((None, None, None, Some(1408), None, None, false)),
        true,
    ),
    (
        "aeron:udp?a=1",
        Case::States((None, None, None, None, None, None, false)),
        true,
    ),
    // A place is the first that fits.
    (
        "aeron:udp?control-mode=dynamic|control=10.0.0.2:7|endpoint=10.0.0.3:8",
        Case::Place(Some("10.0.0.2:7")),
        true,
    ),
    (
        "aeron:udp?control-mode=dynamic|endpoint=10.0.0.3:8",
        Case::Place(None),
        true,
    ),
    (
        "aeron:ipc?control-mode=manual",
        Case::Place(Some("ipc")),
        true,
    ),
    (
        "aeron:ipc?control-mode=manual",
        Case::Place(Some("manual")),
        false,
    ),
    (
        "aeron:udp?endpoint=127.0.0.1:1|control-mode=manual",
        Case::Place(Some("manual")),
        true,
    ),
    (
        "aeron-spy:aeron:udp?endpoint=localhost:40123",
        Case::Place(Some("127.0.0.1:40123")),
        true,
    ),
    ("aeron:udp?a=1", Case::Place(None), true),
    ("aeron:udp?a=1|a=2", Case::TermLength(None), true),
    ("aeron:udp?a=1|a=2", Case::Value("a", Some("2")), true),
];

static NUMBERS: [Row; 22] = [
    ("aeron:udp?a=1|a=2", Case::Value("a", Some("1")), false),
    ("aeron:ipc?term-length=64K", Case::Value("a", None), true),
    (
        "aeron:ipc?term-length=64K",
        Case::TermLength(Some(65536)),
        true,
    ),
    (
        "aeron:ipc?term-length=64K",
        Case::TermLength(Some(65535)),
        false,
    ),
    (
        "aeron:ipc?session-id=-2147483648",
        Case::Numbers(Some(-2147483648), None),
        true,
    ),
    (
        "aeron:ipc?session-id=2147483647",
        Case::Numbers(Some(2147483647), None),
        true,
    ),
    (
        "aeron:ipc?session-id=-0",
        Case::Numbers(Some(0), None),
        true,
    ),
    (
        "aeron:ipc?session-id=-007",
        Case::Numbers(Some(-7), None),
        true,
    ),
    (
        "aeron:ipc?session-id=-007",
        Case::Numbers(Some(7), None),
        false,
    ),
    ("aeron:ipc?linger=0", Case::Numbers(None, Some(0)), true),
    ("aeron:ipc?linger=7", Case::Numbers(None, Some(7)), true),
    ("aeron:ipc?linger=7ns", Case::Numbers(None, Some(7)), true),
    (
        "aeron:ipc?linger=7us",
        Case::Numbers(None, Some(7_000)),
        true,
    ),
    (
        "aeron:ipc?linger=7us",
        Case::Numbers(None, Some(7_001)),
        false,
    ),
    (
        "aeron:ipc?linger=7ms",
        Case::Numbers(None, Some(7_000_000)),
        true,
    ),
    (
        "aeron:ipc?linger=7s",
        Case::Numbers(None, Some(7_000_000_000)),
        true,
    ),
    (
        "aeron:ipc?linger=0000000000000000000000007s",
        Case::Numbers(None, Some(7_000_000_000)),
        true,
    ),
    (
        "aeron:ipc?linger=9223372036854775807",
        Case::Numbers(None, Some(9223372036854775807)),
        true,
    ),
    (
        "aeron:ipc?linger=9223372036854775807ns",
        Case::Numbers(None, Some(9223372036854775807)),
        true,
    ),
    (
        "aeron:ipc?linger=9223372036854775us",
        Case::Numbers(None, Some(9223372036854775000)),
        true,
    ),
    (
        "aeron:ipc?linger=9223372036854ms",
        Case::Numbers(None, Some(9223372036854000000)),
        true,
    ),
    (
        "aeron:ipc?linger=9223372036s",
        Case::Numbers(None, Some(9223372036000000000)),
        true,
    ),
];

#[test]
fn channels_show_what_their_texts_say(rt: HostRuntime) {
    let shown = are_shown(rt.alloc(), &ROWS) & are_shown(rt.alloc(), &NUMBERS);
    assert!(rt; shown & others_are_so(rt.alloc()));
}
