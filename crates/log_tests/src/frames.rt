use frame_codec::{
    BadPacket, Datagram, Flags, Frame, Frames, Header, Join, Kind, Nak, Packet, Setup,
    StatusMessage, TermPlace, padded_length, position, term_of, write_beat, write_data, write_nak,
    write_pad, write_setup, write_sm,
};
use std::alloc::Global;

/// A SETUP of session 9, stream 10: terms of 64 KiB from term 5 on, MTU 1408.
const SETUP: [u8; 40] = [
    0x28, 0, 0, 0, 0, 0, 5, 0, // length, version, flags, type
    0, 0, 0, 0, // term offset
    9, 0, 0, 0, 10, 0, 0, 0, // session, stream
    5, 0, 0, 0, 5, 0, 0, 0, // initial and active term
    0, 0, 1, 0, 0x80, 5, 0, 0, 0, 0, 0, 0, // term length, MTU, TTL
];

/// The first data frame of that stream: `abc`, without its filling.
const DATA: [u8; 35] = [
    0x23, 0, 0, 0, 0, 0xc0, 1, 0, // length, version, flags, type
    0, 0, 0, 0, // term offset
    9, 0, 0, 0, 10, 0, 0, 0, 5, 0, 0, 0, // session, stream, term
    0, 0, 0, 0, 0, 0, 0, 0, // reserved value
    0x61, 0x62, 0x63,
];

/// A status message of that stream: nothing was consumed, and there is room for half a term.
const STATUS: [u8; 36] = [
    0x24, 0, 0, 0, 0, 0, 3, 0, // length, version, flags, type
    9, 0, 0, 0, 10, 0, 0, 0, 5, 0, 0, 0, // session, stream, consumption term
    0, 0, 0, 0, 0, 0x80, 0, 0, // consumption term offset, receiver window
    1, 0, 0, 0, 0, 0, 0, 0, // receiver id
];

/// A NAK of the first 64 bytes of that stream.
const NAK: [u8; 28] = [
    0x1c, 0, 0, 0, 0, 0, 2, 0, // length, version, flags, type
    9, 0, 0, 0, 10, 0, 0, 0, 5, 0, 0, 0, // session, stream, term
    0, 0, 0, 0, 0x40, 0, 0, 0, // term offset, length
];

/// A pad of 96 bytes at offset 64.
const PAD: [u8; 32] = [
    0x60, 0, 0, 0, 0, 0xc0, 0, 0, // length, version, flags, type
    0x40, 0, 0, 0, // term offset
    9, 0, 0, 0, 10, 0, 0, 0, 5, 0, 0, 0, // session, stream, term
    0, 0, 0, 0, 0, 0, 0, 0, // reserved value
];

/// A heartbeat at offset 64.
const BEAT: [u8; 32] = [
    0, 0, 0, 0, 0, 0xc0, 1, 0, // length, version, flags, type
    0x40, 0, 0, 0, // term offset
    9, 0, 0, 0, 10, 0, 0, 0, 5, 0, 0, 0, // session, stream, term
    0, 0, 0, 0, 0, 0, 0, 0, // reserved value
];

/// The place of a frame of that stream.
fn at(term_offset: u32) -> TermPlace {
    TermPlace {
        session_id: 9,
        stream_id: 10,
        term_id: 5,
        term_offset,
    }
}

/// The first bytes of these, or all where there are fewer.
fn front(bytes: &[u8], size: usize) -> &[u8] {
    let (front, _) = bytes.split_at(size.min(bytes.len()));
    front
}

/// What a datagram holds.
#[derive(Clone, Copy, Debug, PartialEq, Eq)]
enum Held {
    Data,
    Beat,
    Nak,
    Status,
    Setup,
}

/// What a datagram holds, or why it is dropped.
type Answer = Result<Held, BadPacket>;

/// What becomes of a datagram.
fn read_as(bytes: &[u8]) -> Answer {
    match Datagram::read(bytes)? {
        Packet::Data(_) => Ok(Held::Data),
        Packet::Beat(_) => Ok(Held::Beat),
        Packet::Nak(_) => Ok(Held::Nak),
        Packet::Sm(_) => Ok(Held::Status),
        Packet::Setup(_) => Ok(Held::Setup),
    }
}

/// What becomes of a datagram of at most 128 bytes with one byte set.
fn read_with(datagram: &[u8], place: usize, value: u8) -> Answer {
    let mut bytes = [0; 128];
    let size = datagram.len().min(128);
    bytes[..size].copy_from_slice(&datagram[..size]);
    if place < size {
        bytes[place] = value;
    }
    read_as(&bytes[..size])
}

/// Initial term, term and offset, and the position, in terms of 64 KiB.
static PLACES: [(i32, i32, u32, u64); 3] = [
    (5, 7, 96, 131_168),
    (2_147_483_647, -2_147_483_648, 64, 65_600),
    (5, 5, 0, 0),
];

/// Whether these are the positions of these places, and the other way round.
fn are_positions(rows: &[(i32, i32, u32, u64)]) -> bool {
    let mut same = true;
    for (initial, term, offset, wanted) in rows {
        same &= (position(*initial, *term, *offset, 65_536) == *wanted)
            & (term_of(*initial, *wanted, 65_536) == (*term, *offset));
    }
    same
}

#[test]
fn positions(rt: HostRuntime) {
    let padded = (padded_length(35) == 64) & (padded_length(64) == 64);
    assert!(rt; are_positions(&PLACES) & padded);
}

/// Whether each datagram with one byte set becomes that.
fn are_changed(rows: &[(&[u8], usize, u8, Answer)]) -> bool {
    let mut same = true;
    for (datagram, place, value, wanted) in rows {
        same &= read_with(datagram, *place, *value) == *wanted;
    }
    same
}

static DROPPED: [(&[u8], usize, u8, Answer); 5] = [
    (&[], 0, 0, Err(BadPacket::TooShort)),
    (&DATA, 4, 1, Err(BadPacket::BadVersion)),
    (&DATA, 6, 4, Err(BadPacket::OtherType)),
    (&DATA, 0, 31, Err(BadPacket::BadLength)),
    (&DATA, 8, 33, Err(BadPacket::Unaligned)),
];

/// Frames with one byte set: a negative field is a bad length.
static NEGATIVE: [(&[u8], usize, u8, Answer); 8] = [
    (&STATUS, 23, 0x80, Err(BadPacket::BadLength)),
    (&STATUS, 27, 0x80, Err(BadPacket::BadLength)),
    (&NAK, 23, 0x80, Err(BadPacket::BadLength)),
    // Of how many bytes a NAK is, is not looked at; a status message needs no alignment.
    (&NAK, 27, 0x80, Ok(Held::Nak)),
    (&STATUS, 20, 33, Ok(Held::Status)),
    (&NAK, 20, 33, Err(BadPacket::Unaligned)),
    (&PAD, 0, 0, Err(BadPacket::BadLength)),
    (&BEAT, 8, 33, Err(BadPacket::Unaligned)),
];

#[test]
fn dropped_datagrams(rt: HostRuntime) {
    assert!(rt; are_changed(&DROPPED) & are_changed(&NEGATIVE));
}

/// The first SETUP's fields.
const SETUP_FIELDS: Setup = Setup {
    flags: Flags::NONE,
    term_offset: 0,
    session_id: 9,
    stream_id: 10,
    initial_term_id: 5,
    active_term_id: 5,
    term_length: 65_536,
    mtu: 1408,
    ttl: 0,
};

const START: TermPlace = TermPlace {
    session_id: 9,
    stream_id: 10,
    term_id: 5,
    term_offset: 0,
};

const LATER: TermPlace = TermPlace {
    session_id: 9,
    stream_id: 10,
    term_id: 5,
    term_offset: 64,
};

const STILL_LATER: TermPlace = TermPlace {
    session_id: 9,
    stream_id: 10,
    term_id: 5,
    term_offset: 96,
};

/// Of the first data frame.
const DATA_HEADER: Header = Header {
    kind: Kind::Data,
    length: 35,
    flags: Flags::UNFRAGMENTED,
    place: START,
    reserved_value: 0,
};

const PAD_HEADER: Header = Header {
    kind: Kind::Pad,
    length: 96,
    flags: Flags::UNFRAGMENTED,
    place: LATER,
    reserved_value: 0,
};

/// What is read of a datagram.
#[derive(Clone, Copy)]
enum Wanted {
    Setup(Setup),
    Status(StatusMessage),
    Nak(Nak),
    /// A heartbeat of this length, at this place.
    Beat(u32, TermPlace),
    /// One data frame or pad, of this header, bytes and payload.
    Frame(Header, &'static [u8], &'static [u8]),
}

/// Whether the first frame is this one, and no other follows.
fn is_frame(mut frames: Frames<'_>, header: &Header, bytes: &[u8], payload: &[u8]) -> bool {
    match frames.next() {
        Some(frame) => {
            let same = (frame.header == *header) & (frame.bytes == bytes);
            same & (frame.payload() == payload) & frames.next().is_none()
        }
        None => false,
    }
}

fn is_read(datagram: &[u8], wanted: Wanted) -> bool {
    match (Datagram::read(datagram), wanted) {
        (Ok(Packet::Setup(read)), Wanted::Setup(setup)) => read == setup,
        (Ok(Packet::Sm(read)), Wanted::Status(status)) => read == status,
        (Ok(Packet::Nak(read)), Wanted::Nak(nak)) => read == nak,
        (Ok(Packet::Beat(read)), Wanted::Beat(length, place)) => {
            (read.length == length) & (read.place == place)
        }
        (Ok(Packet::Data(frames)), Wanted::Frame(header, bytes, payload)) => {
            is_frame(frames, &header, bytes, payload)
        }
        _ => false,
    }
}

/// Whether each datagram is read so, or not, as its row says.
fn are_read(rows: &[(&[u8], Wanted, bool)]) -> bool {
    for &(datagram, wanted, so) in rows {
        if is_read(datagram, wanted) != so {
            return false;
        }
    }
    true
}

/// What is written.
#[derive(Clone, Copy)]
enum Written {
    Setup,
    Data,
    Status,
    Nak,
    Pad,
    Beat,
}

/// Whether these bytes are written, and none after them.
fn is_written(written: Written, bytes: &[u8]) -> bool {
    let blank = [0xff; 65];
    let mut out = blank;
    match written {
        Written::Setup => write_setup(&mut out, &SETUP_FIELDS),
        Written::Data => write_data(&mut out, Flags::UNFRAGMENTED, &START, b"abc"),
        Written::Status => write_sm(&mut out, &STATUS_FIELDS),
        Written::Nak => write_nak(&mut out, &NAK_FIELDS),
        Written::Pad => write_pad(&mut out, Flags::UNFRAGMENTED, &LATER, 96),
        Written::Beat => write_beat(&mut out, Flags::UNFRAGMENTED, &LATER),
    }
    let size = bytes.len().min(65);
    &out[..size] == bytes && &out[size..] == &blank[size..]
}

fn are_written(rows: &[(Written, &[u8])]) -> bool {
    for &(written, bytes) in rows {
        if !is_written(written, bytes) {
            return false;
        }
    }
    true
}

/// How many bytes there are at most in a term: 16 MiB.
const LONGEST: i32 = 16_777_216;

/// What SETUPs state: the length of a term, the MTU, the term offset, the initial and the active term, and the position
/// at which an image joins, if no fault of theirs keeps it from joining.
type Joining = (i32, i32, u32, i32, i32, Option<u64>);

static JOININGS: [Joining; 22] = [
    (65_536, 1408, 0, 5, 5, Some(0)),
    (65_536, 1408, 96, 5, 7, Some(131_168)),
    (131_072, 64, 131_040, 5, 5, Some(131_040)),
    (LONGEST, 65_504, 32, 0, 1, Some(16_777_248)),
    // Ids of terms wrap.
    (65_536, 1408, 64, i32::MAX, i32::MIN, Some(65_600)),
    (65_536, 1408, 0, 0, i32::MAX, Some(140_737_488_289_792)),
    (65_536, 1408, 0, 0, i32::MIN, None),
    (65_536, 1408, 0, 5, 4, None),
    (0, 1408, 0, 5, 5, None),
    (-65_536, 1408, 0, 5, 5, None),
    (32_768, 1408, 0, 5, 5, None),
    (65_568, 1408, 0, 5, 5, None),
    (196_608, 1408, 0, 5, 5, None),
    (33_554_432, 1408, 0, 5, 5, None),
    (65_536, 32, 0, 5, 5, None),
    (65_536, 65_536, 0, 5, 5, None),
    (65_536, 1400, 0, 5, 5, None),
    (65_536, -1408, 0, 5, 5, None),
    (65_536, 1408, 65_536, 5, 5, None),
    (65_536, 1408, 65_504, 5, 5, Some(65_504)),
    (65_536, 1408, 33, 5, 5, None),
    (131_072, 1408, 65_536, 5, 5, Some(65_536)),
];

/// Whether an image joins where the row says, and with the sizes that it says.
fn joins_at(row: Joining) -> bool {
    let (term_length, mtu, term_offset, initial_term_id, active_term_id, wanted) = row;
    let setup = Setup {
        term_offset,
        initial_term_id,
        active_term_id,
        term_length,
        mtu,
        ..SETUP_FIELDS
    };
    match (setup.join(), wanted) {
        (Some(join), Some(position)) => join == joined(term_length, mtu, position),
        (None, None) => true,
        _ => false,
    }
}

fn joined(term_length: i32, mtu: i32, position: u64) -> Join {
    Join {
        position,
        term_length: term_length.cast_unsigned(),
        mtu: mtu.cast_unsigned(),
    }
}

fn join_at(rows: &[Joining]) -> bool {
    for &row in rows {
        if !joins_at(row) {
            return false;
        }
    }
    true
}

#[test]
fn images_join_by_sound_setups(rt: HostRuntime) {
    let others = joins_at((65_536, 1408, 32, 5, 5, Some(0)))
        | joins_at((65_536, 1408, 32, 5, 5, None));
    assert!(rt; join_at(&JOININGS) & !others);
}

const STATUS_FIELDS: StatusMessage = StatusMessage {
    flags: Flags::NONE,
    session_id: 9,
    stream_id: 10,
    consumption_term_id: 5,
    consumption_term_offset: 0,
    receiver_window: 32_768,
    receiver_id: 1,
};

const NAK_FIELDS: Nak = Nak {
    flags: Flags::NONE,
    session_id: 9,
    stream_id: 10,
    term_id: 5,
    term_offset: 0,
    length: 64,
};

/// The first data frame, with its filling.
const FILLED: [u8; 64] = [
    0x23, 0, 0, 0, 0, 0xc0, 1, 0, // length, version, flags, type
    0, 0, 0, 0, // term offset
    9, 0, 0, 0, 10, 0, 0, 0, 5, 0, 0, 0, // session, stream, term
    0, 0, 0, 0, 0, 0, 0, 0, // reserved value
    0x61, 0x62, 0x63, 0, 0, 0, 0, 0, 0, 0, 0, 0, 0, 0, 0, 0, 0, 0, 0, 0, 0, 0, 0, 0, 0, 0, 0, 0, 0,
    0, 0, 0,
];

static SETUP_AND_DATA: [(&[u8], Wanted, bool); 2] = [
    (&SETUP, Wanted::Setup(SETUP_FIELDS), true),
    (&DATA, Wanted::Frame(DATA_HEADER, &DATA, b"abc"), true),
];

static SETUP_AND_DATA_BYTES: [(Written, &[u8]); 2] = [
    (Written::Setup, &SETUP),
    (Written::Data, &FILLED),
];

fn is_of_one_frame(flags: Flags) -> bool {
    flags.begins_message() & flags.ends_message() & !flags.ends_stream()
}

#[test]
fn setup_and_data(rt: HostRuntime) {
    let whole = is_of_one_frame(DATA_HEADER.flags);
    assert!(rt; whole & are_read(&SETUP_AND_DATA) & are_written(&SETUP_AND_DATA_BYTES));
}

static NAK_AND_STATUS: [(&[u8], Wanted, bool); 2] = [
    (&STATUS, Wanted::Status(STATUS_FIELDS), true),
    (&NAK, Wanted::Nak(NAK_FIELDS), true),
];

static NAK_AND_STATUS_BYTES: [(Written, &[u8]); 2] = [
    (Written::Status, &STATUS),
    (Written::Nak, &NAK),
];

#[test]
fn nak_and_status_timing(rt: HostRuntime) {
    assert!(rt; are_read(&NAK_AND_STATUS) & are_written(&NAK_AND_STATUS_BYTES));
}

static PADS_AND_BEATS: [(&[u8], Wanted, bool); 2] = [
    (&PAD, Wanted::Frame(PAD_HEADER, &PAD, b""), true),
    (&BEAT, Wanted::Beat(0, LATER), true),
];

static PAD_AND_BEAT_BYTES: [(Written, &[u8]); 2] = [(Written::Pad, &PAD), (Written::Beat, &BEAT)];

#[test]
fn pads_and_heartbeats(rt: HostRuntime) {
    assert!(rt; are_read(&PADS_AND_BEATS) & are_written(&PAD_AND_BEAT_BYTES));
}

/// A status message with fields of all sizes, with bytes that differ, and bits without a name.
const FULL_STATUS: [u8; 36] = [
    0x24, 0, 0, 0, 0, 0x93, 3, 0, // length, version, flags, type
    1, 2, 3, 4, 5, 6, 7, 0x88, 0xff, 0xff, 0xff, 0xff, // session, stream, term
    0x21, 2, 3, 4, 0x44, 0x33, 0x22, 0x11, // consumption term offset, window
    8, 7, 6, 5, 4, 3, 2, 0x81, // receiver id
];

const FULL_STATUS_FIELDS: StatusMessage = StatusMessage {
    flags: Flags { bits: 0x93 },
    session_id: 0x0403_0201,
    stream_id: -2_012_805_627,
    consumption_term_id: -1,
    consumption_term_offset: 0x0403_0221,
    receiver_window: 0x1122_3344,
    receiver_id: 0x8102_0304_0506_0708,
};

/// The first data frame with a reserved value.
const RESERVED: [u8; 35] = [
    0x23, 0, 0, 0, 0, 0xc0, 1, 0, // length, version, flags, type
    0, 0, 0, 0, // term offset
    9, 0, 0, 0, 10, 0, 0, 0, 5, 0, 0, 0, // session, stream, term
    0x11, 0, 0, 0, 0, 0, 0, 0x88, // reserved value
    0x61, 0x62, 0x63,
];

const RESERVED_HEADER: Header = Header {
    kind: Kind::Data,
    length: 35,
    flags: Flags::UNFRAGMENTED,
    place: START,
    reserved_value: 0x8800_0000_0000_0011,
};

const LONGER_NAK: Nak = Nak {
    flags: Flags::NONE,
    session_id: 9,
    stream_id: 10,
    term_id: 5,
    term_offset: 0,
    length: 65,
};

/// Every byte of a field counts. The last rows are each beside something that differs in one place.
static FIELDS: [(&[u8], Wanted, bool); 8] = [
    (&FULL_STATUS, Wanted::Status(FULL_STATUS_FIELDS), true),
    (
        &RESERVED,
        Wanted::Frame(RESERVED_HEADER, &RESERVED, b"abc"),
        true,
    ),
    (&DATA, Wanted::Setup(SETUP_FIELDS), false),
    (&STATUS, Wanted::Status(FULL_STATUS_FIELDS), false),
    (&NAK, Wanted::Nak(LONGER_NAK), false),
    (&BEAT, Wanted::Beat(0, STILL_LATER), false),
    (&DATA, Wanted::Frame(PAD_HEADER, &DATA, b"abc"), false),
    (&DATA, Wanted::Frame(DATA_HEADER, &DATA, b"abd"), false),
];

/// Each of these tables has one row that differs.
fn has_other_answers() -> bool {
    let places = are_positions(&[PLACES[0], (5, 5, 0, 32)]);
    let bytes = are_changed(&[DROPPED[1], (&DATA, 4, 0, Err(BadPacket::BadVersion))]);
    places | bytes | has_prefixes(&DATA, &[(34, 36, Err(BadPacket::BadLength))])
}

/// So many bytes from the start, up to fewer than so many, and what becomes of them.
type Prefix = (usize, usize, Answer);

/// Whether the datagram's first bytes become that.
fn has_prefixes(datagram: &[u8], rows: &[Prefix]) -> bool {
    let mut same = true;
    for &(from, to, wanted) in rows {
        for size in from..to {
            same &= read_as(front(datagram, size)) == wanted;
        }
    }
    same
}

fn have_prefixes(tables: &[(&[u8], &[Prefix])]) -> bool {
    let mut same = true;
    for &(datagram, rows) in tables {
        same &= has_prefixes(datagram, rows);
    }
    same
}

static FRONTS: [(&[u8], &[Prefix]); 6] = [
    (
        &SETUP,
        &[(0, 40, Err(BadPacket::TooShort)), (40, 41, Ok(Held::Setup))],
    ),
    (
        &STATUS,
        &[
            (0, 36, Err(BadPacket::TooShort)),
            (36, 37, Ok(Held::Status)),
        ],
    ),
    (
        &NAK,
        &[(0, 28, Err(BadPacket::TooShort)), (28, 29, Ok(Held::Nak))],
    ),
    (
        &PAD,
        &[(0, 32, Err(BadPacket::TooShort)), (32, 33, Ok(Held::Data))],
    ),
    (
        &BEAT,
        &[(0, 32, Err(BadPacket::TooShort)), (32, 33, Ok(Held::Beat))],
    ),
    (
        &DATA,
        &[
            (0, 32, Err(BadPacket::TooShort)),
            (32, 35, Err(BadPacket::BadLength)),
            (35, 36, Ok(Held::Data)),
        ],
    ),
];

/// What becomes of a SETUP or a data frame at offset 0, by the rules, when one byte is set to 0, 1, 0x80 or 0xff.
/// `sound` is what it holds otherwise. Both have their length in one byte, and neither length is a multiple of 32.
fn changed(place: usize, value: u8, sound: Held) -> Answer {
    match (place, value) {
        // A length that is too small, or above the bytes there, or negative.
        (0, _) => Err(BadPacket::BadLength),
        (1..=3, 0) => Ok(sound),
        (1..=3, _) => Err(BadPacket::BadLength),
        (4, 0) => Ok(sound),
        (4, _) => Err(BadPacket::BadVersion),
        // A pad of such a length; data; no type.
        (6, 0) => Err(BadPacket::BadLength),
        (6, 1) => Ok(Held::Data),
        (6, _) => Err(BadPacket::OtherType),
        (7, 0) => Ok(sound),
        (7, _) => Err(BadPacket::OtherType),
        // An offset of 1 or 255.
        (8, 1) => Err(BadPacket::Unaligned),
        (8, 0xff) => Err(BadPacket::Unaligned),
        // A negative offset.
        (11, 0x80) => Err(BadPacket::BadLength),
        (11, 0xff) => Err(BadPacket::BadLength),
        _ => Ok(sound),
    }
}

/// Whether the datagram with each byte of `size` set to one of these becomes what the rules say.
fn changes_are_known(datagram: &[u8], size: usize, sound: Held) -> bool {
    let mut same = true;
    for value in [0, 1, 0x80, 0xff] {
        for place in 0..size {
            same &= read_with(datagram, place, value) == changed(place, value, sound);
        }
    }
    same
}

#[test]
fn each_byte_changed(rt: HostRuntime) {
    let known = changes_are_known(&SETUP, 40, Held::Setup)
        & changes_are_known(&DATA, 35, Held::Data);
    assert!(rt; known & !changes_are_known(&PAD, 32, Held::Data));
}

/// Two data frames and a pad, one after another: `abc` at 0, nothing at 64, and the pad at 96.
fn run() -> [u8; 128] {
    let mut out = [0xff; 128];
    let (first, rest) = out.split_at_mut(64);
    let (second, third) = rest.split_at_mut(32);
    write_data(first, Flags::BEGIN, &at(0), b"abc");
    write_data(second, Flags::END, &at(64), &[]);
    write_pad(third, Flags::UNFRAGMENTED, &at(96), 64);
    out
}

/// The offset, length, kind and payload's length of a frame.
type Row = (u32, u32, Kind, usize);

/// Whether a datagram's frames are these.
fn has_frames(bytes: &[u8], rows: &[Row]) -> bool {
    let Ok(Packet::Data(found)) = Datagram::read(bytes) else {
        return false;
    };
    let mut count = 0usize;
    let mut same = true;
    for frame in found {
        let row = (
            frame.header.place.term_offset,
            frame.header.length,
            frame.header.kind,
            frame.payload().len(),
        );
        same &= rows.get(count) == Some(&row);
        count = count.wrapping_add(1);
    }
    same && count == rows.len()
}

static RUN_ROWS: [Row; 3] = [
    (0, 35, Kind::Data, 3),
    (64, 32, Kind::Data, 0),
    (96, 64, Kind::Pad, 0),
];

/// The filling of the last frame may be missing. A rest after it is a frame, or too short.
static RUN_FRONTS: [Prefix; 6] = [
    (35, 36, Ok(Held::Data)),
    (50, 51, Ok(Held::Data)),
    (64, 65, Ok(Held::Data)),
    (65, 66, Err(BadPacket::TooShort)),
    (95, 96, Err(BadPacket::TooShort)),
    (96, 97, Ok(Held::Data)),
];

/// Nothing stands after a pad.
static PAD_FRONTS: [Prefix; 4] = [
    (32, 33, Ok(Held::Data)),
    (33, 64, Err(BadPacket::TooShort)),
    (66, 67, Err(BadPacket::BadLength)),
    (96, 97, Err(BadPacket::Mixed)),
];

fn is_run(bytes: &[u8]) -> bool {
    has_frames(bytes, &RUN_ROWS) & has_prefixes(bytes, &RUN_FRONTS)
}

/// Of the first data frame there is one, and there could be no other.
fn could_be_one() -> bool {
    match Datagram::read(&DATA) {
        Ok(Packet::Data(frames)) => frames.most() == 1,
        _ => false,
    }
}

#[test]
fn prefixes(rt: HostRuntime) {
    let several = is_run(&run()) & has_prefixes(&pad_and_data(), &PAD_FRONTS);
    assert!(rt; have_prefixes(&FRONTS) & several & could_be_one());
}

/// One too few, one too many, in another order, and one of another kind.
static OTHER_ROWS: [&[Row]; 4] = [
    &[(0, 35, Kind::Data, 3), (64, 32, Kind::Data, 0)],
    &[
        (0, 35, Kind::Data, 3),
        (64, 32, Kind::Data, 0),
        (96, 64, Kind::Pad, 0),
        (96, 64, Kind::Pad, 0),
    ],
    &[
        (64, 32, Kind::Data, 0),
        (0, 35, Kind::Data, 3),
        (96, 64, Kind::Pad, 0),
    ],
    &[
        (0, 35, Kind::Data, 3),
        (64, 32, Kind::Data, 0),
        (96, 64, Kind::Data, 0),
    ],
];

fn has_any(bytes: &[u8], tables: &[&[Row]]) -> bool {
    let mut any = false;
    for &rows in tables {
        any |= has_frames(bytes, rows);
    }
    any
}

#[test]
fn others_are_told(rt: HostRuntime) {
    let fields = are_read(&FIELDS) & FULL_STATUS_FIELDS.flags.asks_for_setup();
    let frames = has_any(&run(), &OTHER_ROWS) | has_frames(&SETUP, &[]);
    let first = is_read(&run(), Wanted::Frame(DATA_HEADER, &DATA, b"abc"));
    assert!(rt; fields & !frames & !first & !has_other_answers());
}

/// Whether a datagram has these faults with one byte set, so many bytes from its start.
fn has_faults(datagram: &[u8], from: usize, rows: &[(usize, u8, BadPacket)]) -> bool {
    let mut same = true;
    for (place, value, fault) in rows {
        same &= read_with(datagram, from.saturating_add(*place), *value) == Err(*fault);
    }
    same
}

/// From the second frame of the run on.
static LATER_FAULTS: [(usize, u8, BadPacket); 12] = [
    (4, 1, BadPacket::BadVersion),
    (6, 4, BadPacket::OtherType),
    // No heartbeat stands after another frame.
    (0, 0, BadPacket::BadLength),
    (0, 31, BadPacket::BadLength),
    (8, 65, BadPacket::Unaligned),
    // Another offset, session, stream, term.
    (8, 96, BadPacket::Mixed),
    (12, 8, BadPacket::Mixed),
    (16, 8, BadPacket::Mixed),
    (20, 8, BadPacket::Mixed),
    // A SETUP after a frame is too long for the rest, or mixed.
    (6, 5, BadPacket::BadLength),
    (32 + 6, 5, BadPacket::TooShort),
    (32 + 6, 2, BadPacket::BadLength),
];

/// Of a SETUP after a data frame; its own faults come before `Mixed`.
static SETUP_FAULTS: [(usize, u8, BadPacket); 3] = [
    (0, 40, BadPacket::Mixed),
    (8, 1, BadPacket::Unaligned),
    (0, 39, BadPacket::BadLength),
];

/// A data frame of `abc`, and the SETUP after it.
fn setup_behind() -> [u8; 104] {
    let mut bytes = [0xff; 104];
    write_data(&mut bytes, Flags::UNFRAGMENTED, &at(0), b"abc");
    bytes[64..].copy_from_slice(&SETUP);
    bytes
}

/// Each of these tables has one row that differs.
fn has_other_faults(datagram: &[u8]) -> bool {
    has_faults(
        datagram,
        64,
        &[(4, 0, BadPacket::BadVersion), LATER_FAULTS[0]],
    ) | has_faults(
        datagram,
        64,
        &[LATER_FAULTS[0], (4, 1, BadPacket::OtherType)],
    )
}

#[test]
fn faults_of_later_frames(rt: HostRuntime) {
    let found = has_faults(&run(), 64, &LATER_FAULTS)
        & has_faults(&setup_behind(), 64, &SETUP_FAULTS);
    assert!(rt; found & !has_other_faults(&run()));
}

/// A pad of 32 bytes, and a data frame after it.
fn pad_and_data() -> [u8; 96] {
    let mut out = [0xff; 96];
    let (pad, data) = out.split_at_mut(32);
    write_pad(pad, Flags::UNFRAGMENTED, &at(0), 32);
    write_data(data, Flags::UNFRAGMENTED, &at(32), b"abc");
    out
}

/// A status message of 40 bytes is read by its first 36; bytes after a NAK are not looked at.
#[test]
fn longer_frames(rt: HostRuntime) {
    let mut status = [0xff; 40];
    status[..36].copy_from_slice(&STATUS);
    let mut nak = [0xff; 30];
    nak[..28].copy_from_slice(&NAK);
    let rows: [(&[u8], usize, u8, Answer); 4] = [
        (&status, 0, 36, Ok(Held::Status)),
        (&status, 0, 40, Ok(Held::Status)),
        (&status, 0, 41, Err(BadPacket::BadLength)),
        (&nak, 0, 28, Ok(Held::Nak)),
    ];
    assert!(rt; are_changed(&rows));
}

/// A fault, a word, and whether the fault has it.
static WORDS: [(BadPacket, &str, bool); 7] = [
    (BadPacket::TooShort, "too-short", true),
    (BadPacket::BadVersion, "bad-version", true),
    (BadPacket::OtherType, "other-type", true),
    (BadPacket::BadLength, "bad-length", true),
    (BadPacket::Unaligned, "unaligned", true),
    (BadPacket::Mixed, "mixed", true),
    (BadPacket::Mixed, "mix", false),
];

/// Whether the fault is written so, or not, as is wanted.
fn is_called(alloc: Global, fault: BadPacket, word: &str, wanted: bool) -> bool {
    match fault.to_string(alloc) {
        Ok(text) => (text.as_str() == word) == wanted,
        Err(_) => false,
    }
}

fn are_called(alloc: Global, rows: &[(BadPacket, &str, bool)]) -> bool {
    for &(fault, word, wanted) in rows {
        if !is_called(alloc, fault, word, wanted) {
            return false;
        }
    }
    true
}

#[test]
fn words_of_faults(rt: HostRuntime) {
    assert!(rt; are_called(rt.alloc(), &WORDS));
}
