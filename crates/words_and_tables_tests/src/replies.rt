use crate::layouts::{changed, each_front_is_a_malformed_reply, longer, reply_fault};
use byte_strings::Text;
use command_codec::{
    AvailableImage, ClientTimeout, CommandFault, CounterReady, ErrorCode, ErrorReply,
    OperationSuccess, PublicationReady, Reply, SubscriptionReady, UnavailableCounter,
    UnavailableImage,
};
use std::alloc::{AllocError, Global};

/// ON_ERROR for correlation id 11: 1001, `denied by default in policy 1`.
const DENIAL: [u8; 49] = [
    0x01, 0x0f, 0, 0, // type
    0x0b, 0, 0, 0, 0, 0, 0, 0, // correlation
    0xe9, 0x03, 0, 0, // code
    0x1d, 0, 0, 0, 0x64, 0x65, 0x6e, 0x69, 0x65, 0x64, 0x20, 0x62, 0x79, 0x20, 0x64, 0x65, 0x66,
    0x61, 0x75, 0x6c, 0x74, 0x20, 0x69, 0x6e, 0x20, 0x70, 0x6f, 0x6c, 0x69, 0x63, 0x79, 0x20, 0x31, // text
];

/// ON_AVAILABLE_IMAGE: source 2 for subscription 1, session 9, stream 10, from position 0, `127.0.0.1:40000`.
const AVAILABLE: [u8; 55] = [
    0x02, 0x0f, 0, 0, // type
    0x02, 0, 0, 0, 0, 0, 0, 0, // source
    0x01, 0, 0, 0, 0, 0, 0, 0, // subscription
    0x09, 0, 0, 0, // session
    0x0a, 0, 0, 0, // stream
    0, 0, 0, 0, 0, 0, 0, 0, // position
    0x0f, 0, 0, 0, 0x31, 0x32, 0x37, 0x2e, 0x30, 0x2e, 0x30, 0x2e, 0x31, 0x3a, 0x34, 0x30, 0x30,
    0x30, 0x30, // origin
];

/// An image whose session and stream are negative, and whose position has each byte.
const ODD_IMAGE: [u8; 49] = [
    0x02, 0x0f, 0, 0, // type
    0xff, 0xff, 0xff, 0xff, 0xff, 0xff, 0xff, 0xff, // source
    0x02, 0x01, 0, 0, 0, 0, 0, 0, // subscription
    0xff, 0xff, 0xff, 0xff, // session
    0, 0, 0, 0x80, // stream
    0x08, 0x07, 0x06, 0x05, 0x04, 0x03, 0x02, 0x01, // position
    0x09, 0, 0, 0, 0x61, 0x65, 0x72, 0x6f, 0x6e, 0x3a, 0x69, 0x70, 0x63, // origin
];

/// ON_PUBLICATION_READY for correlation id 12: registration 3, session 1, stream 10.
const READY: [u8; 28] = [
    0x03, 0x0f, 0, 0, // type
    0x0c, 0, 0, 0, 0, 0, 0, 0, // correlation
    0x03, 0, 0, 0, 0, 0, 0, 0, // registration
    0x01, 0, 0, 0, // session
    0x0a, 0, 0, 0, // stream
];

/// ON_EXCLUSIVE_PUBLICATION_READY for correlation id 258: registration 4, the least session, stream -2.
const EXCLUSIVE_READY: [u8; 28] = [
    0x06, 0x0f, 0, 0, // type
    0x02, 0x01, 0, 0, 0, 0, 0, 0, // correlation
    0x04, 0, 0, 0, 0, 0, 0, 0, // registration
    0, 0, 0, 0x80, // session
    0xfe, 0xff, 0xff, 0xff, // stream
];

/// ON_OPERATION_SUCCESS for correlation id 13.
const SUCCESS: [u8; 12] = [0x04, 0x0f, 0, 0, 0x0d, 0, 0, 0, 0, 0, 0, 0];

/// ON_UNAVAILABLE_IMAGE: source 2 for subscription 258, stream -2.
const UNAVAILABLE: [u8; 24] = [
    0x05, 0x0f, 0, 0, // type
    0x02, 0, 0, 0, 0, 0, 0, 0, // source
    0x02, 0x01, 0, 0, 0, 0, 0, 0, // subscription
    0xfe, 0xff, 0xff, 0xff, // stream
];

/// ON_SUBSCRIPTION_READY for correlation id 11: registration 258.
const SUBSCRIBED: [u8; 20] = [
    0x07, 0x0f, 0, 0, 0x0b, 0, 0, 0, 0, 0, 0, 0, 0x02, 0x01, 0, 0, 0, 0, 0, 0,
];

/// ON_COUNTER_READY for correlation id 5: registration 258.
const COUNTER_READY: [u8; 20] = [
    0x08, 0x0f, 0, 0, 0x05, 0, 0, 0, 0, 0, 0, 0, 0x02, 0x01, 0, 0, 0, 0, 0, 0,
];

/// ON_UNAVAILABLE_COUNTER: registration 258.
const COUNTER_GONE: [u8; 12] = [0x09, 0x0f, 0, 0, 0x02, 0x01, 0, 0, 0, 0, 0, 0];

/// ON_CLIENT_TIMEOUT: client 258.
const TIMEOUT: [u8; 12] = [0x0a, 0x0f, 0, 0, 0x02, 0x01, 0, 0, 0, 0, 0, 0];

/// Two bytes after an ON_OPERATION_SUCCESS.
const LONGER: [u8; 14] = [0x04, 0x0f, 0, 0, 0x0d, 0, 0, 0, 0, 0, 0, 0, 0, 0];

/// A reply, written without memory.
#[derive(Clone, Copy)]
enum Plain {
    Error(u64, ErrorCode, &'static str),
    AvailableImage(u64, u64, i32, i32, u64, &'static str),
    PublicationReady(PublicationReady),
    ExclusivePublicationReady(PublicationReady),
    OperationSuccess(u64),
    UnavailableImage(u64, u64, i32),
    SubscriptionReady(u64, u64),
    CounterReady(u64, u64),
    UnavailableCounter(u64),
    ClientTimeout(u64),
}

fn error(
    alloc: Global,
    correlation: u64,
    code: ErrorCode,
    text: &str,
) -> Result<ErrorReply, AllocError> {
    let text = Text::new(alloc, text)?;
    Ok(ErrorReply {
        correlation,
        code,
        text,
    })
}

fn image(
    alloc: Global,
    source: u64,
    subscription: u64,
    session: i32,
    stream: i32,
    position: u64,
    origin: &str,
) -> Result<AvailableImage, AllocError> {
    let origin = Text::new(alloc, origin)?;
    Ok(AvailableImage {
        source,
        subscription,
        session,
        stream,
        position,
        origin,
    })
}

/// A reply without a text.
fn short(plain: Plain) -> Reply {
    match plain {
        Plain::PublicationReady(ready) => Reply::PublicationReady(ready),
        Plain::ExclusivePublicationReady(ready) => Reply::ExclusivePublicationReady(ready),
        Plain::OperationSuccess(correlation) => {
            Reply::OperationSuccess(OperationSuccess { correlation })
        }
        Plain::UnavailableImage(source, subscription, stream) => {
            Reply::UnavailableImage(UnavailableImage {
                source,
                subscription,
                stream,
            })
        }
        Plain::SubscriptionReady(correlation, registration) => {
            Reply::SubscriptionReady(SubscriptionReady {
                correlation,
                registration,
            })
        }
        Plain::CounterReady(correlation, registration) => Reply::CounterReady(CounterReady {
            correlation,
            registration,
        }),
        Plain::ClientTimeout(client) => Reply::ClientTimeout(ClientTimeout { client }),
        Plain::UnavailableCounter(registration) => {
            Reply::UnavailableCounter(UnavailableCounter { registration })
        }
        _ => Reply::UnavailableCounter(UnavailableCounter { registration: 0 }),
    }
}

/// The reply that is written so.
fn reply(alloc: Global, plain: Plain) -> Result<Reply, AllocError> {
    match plain {
        Plain::Error(correlation, code, text) => {
            Ok(Reply::Error(error(alloc, correlation, code, text)?))
        }
        Plain::AvailableImage(source, subscription, session, stream, position, origin) => {
            Ok(Reply::AvailableImage(image(
                alloc,
                source,
                subscription,
                session,
                stream,
                position,
                origin,
            )?))
        }
        _ => Ok(short(plain)),
    }
}

/// A reply and its bytes.
type Row = (Plain, &'static [u8]);

static REPLIES: [Row; 11] = [
    (
        Plain::Error(11, ErrorCode::Denied, "denied by default in policy 1"),
        &DENIAL,
    ),
    (
        Plain::AvailableImage(2, 1, 9, 10, 0, "127.0.0.1:40000"),
        &AVAILABLE,
    ),
    (
        Plain::AvailableImage(
            u64::MAX,
            258,
            -1,
            i32::MIN,
            0x0102_0304_0506_0708,
            "aeron:ipc",
        ),
        &ODD_IMAGE,
    ),
    (
        Plain::PublicationReady(PublicationReady {
            correlation: 12,
            registration: 3,
            session: 1,
            stream: 10,
        }),
        &READY,
    ),
    (
        Plain::ExclusivePublicationReady(PublicationReady {
            correlation: 258,
            registration: 4,
            session: i32::MIN,
            stream: -2,
        }),
        &EXCLUSIVE_READY,
    ),
    (Plain::OperationSuccess(13), &SUCCESS),
    (Plain::UnavailableImage(2, 258, -2), &UNAVAILABLE),
    (Plain::SubscriptionReady(11, 258), &SUBSCRIBED),
    (Plain::CounterReady(5, 258), &COUNTER_READY),
    (Plain::UnavailableCounter(258), &COUNTER_GONE),
    (Plain::ClientTimeout(258), &TIMEOUT),
];

/// Whether the reply is written as these bytes.
fn is_written(alloc: Global, reply: &Reply, bytes: &[u8]) -> bool {
    match reply.write(alloc) {
        Ok(written) => written.as_slice() == bytes,
        Err(_) => false,
    }
}

fn is(found: Reply, reply: &Reply) -> bool {
    let same = found == *reply;
    drop(found);
    same
}

/// Whether these bytes are read as the reply.
fn is_read(alloc: Global, reply: &Reply, bytes: &[u8]) -> bool {
    match Reply::read(alloc, bytes) {
        Ok(read) => is(read, reply),
        Err(_) => false,
    }
}

fn is_copied(alloc: Global, reply: &Reply) -> bool {
    match reply.copy(alloc) {
        Ok(copy) => is(copy, reply),
        Err(_) => false,
    }
}

/// Whether the reply of the row is written as its bytes, read from them, and copied.
fn is_row(alloc: Global, row: Row) -> bool {
    let (plain, bytes) = row;
    match reply(alloc, plain) {
        Ok(reply) => {
            let same = is_written(alloc, &reply, bytes)
                & is_read(alloc, &reply, bytes)
                & is_copied(alloc, &reply);
            drop(reply);
            same
        }
        Err(_) => false,
    }
}

/// Whether the bytes with another one, a zero, are no reply because of a field, nor is a front of them.
fn is_whole(alloc: Global, bytes: &[u8]) -> bool {
    match longer(alloc, bytes) {
        Ok(longer) => {
            each_front_is_a_malformed_reply(alloc, bytes)
                & (reply_fault(alloc, longer.as_slice()) == Some(CommandFault::Malformed))
        }
        Err(_) => false,
    }
}

/// Whether the bytes of each row are those of its reply, to their end.
fn are_rows(alloc: Global, rows: &[Row]) -> bool {
    for &(plain, bytes) in rows {
        if !is_row(alloc, (plain, bytes)) || !is_whole(alloc, bytes) {
            return false;
        }
    }
    true
}

/// The bytes of another correlation id.
static OTHER: [Row; 1] = [(Plain::OperationSuccess(12), &SUCCESS)];

/// No front of a reply is one, and neither is a reply with another byte. With ample memory.
#[test]
fn replies_have_their_bytes(rt: HostRuntime) {
    let told = are_rows(rt.alloc(), &REPLIES) & !are_rows(rt.alloc(), &OTHER);
    let longer = is_whole(rt.alloc(), &LONGER)
        | each_front_is_a_malformed_reply(rt.alloc(), &LONGER);
    assert!(rt; told & !longer);
}

/// The bytes of a reply, a place, another byte that stands there, what is wrong then, and whether it is.
type ChangedRow = (&'static [u8], usize, u8, CommandFault, bool);

static CHANGED: [ChangedRow; 8] = [
    // The type of no reply, a code of no error, a text that is not ASCII.
    (&DENIAL, 0, 0x0b, CommandFault::Unknown, true),
    (&DENIAL, 12, 0xef, CommandFault::Malformed, true),
    (&DENIAL, 48, 0x80, CommandFault::Malformed, true),
    // A length past the end, one below the bytes there, a negative one, a text that is not ASCII.
    (&AVAILABLE, 36, 0x10, CommandFault::Malformed, true),
    (&AVAILABLE, 36, 0x0e, CommandFault::Malformed, true),
    (&AVAILABLE, 39, 0x80, CommandFault::Malformed, true),
    (&AVAILABLE, 54, 0x80, CommandFault::Malformed, true),
    (&DENIAL, 12, 0xe9, CommandFault::Malformed, false),
];

/// Whether the bytes with another one at a place have this fault, or not, as the row says.
fn is_faulty_at(alloc: Global, row: ChangedRow) -> bool {
    let (bytes, place, byte, fault, wanted) = row;
    match changed(alloc, bytes, place, byte) {
        Ok(changed) => (reply_fault(alloc, changed.as_slice()) == Some(fault)) == wanted,
        Err(_) => false,
    }
}

fn are_faulty_there(alloc: Global, rows: &[ChangedRow]) -> bool {
    for &row in rows {
        if !is_faulty_at(alloc, row) {
            return false;
        }
    }
    true
}

#[test]
fn faulty_replies(rt: HostRuntime) {
    assert!(rt; are_faulty_there(rt.alloc(), &CHANGED));
}
