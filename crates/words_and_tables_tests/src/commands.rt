use byte_strings::{Bytes, ShortBytes, ShortText, Text};
use command_codec::{
    AddCounter, AddPublication, AddSubscription, Body, Command, CommandFault, Destination, Removal,
    SetCounter, TerminateDriver,
};
use std::alloc::{AllocError, Global};

/// ADD_PUBLICATION of client 1 with correlation id 12: `aeron:ipc`, stream 10.
const ADD: [u8; 37] = [
    0x01, 0, 0, 0, // type
    0x01, 0, 0, 0, 0, 0, 0, 0, // client
    0x0c, 0, 0, 0, 0, 0, 0, 0, // correlation
    0x0a, 0, 0, 0, // stream
    0x09, 0, 0, 0, 0x61, 0x65, 0x72, 0x6f, 0x6e, 0x3a, 0x69, 0x70, 0x63, // channel
];

/// ADD_EXCLUSIVE_PUBLICATION of client 2 with correlation id 258: `aeron:udp`, stream -2.
const ADD_EXCLUSIVE: [u8; 37] = [
    0x03, 0, 0, 0, // type
    0x02, 0, 0, 0, 0, 0, 0, 0, // client
    0x02, 0x01, 0, 0, 0, 0, 0, 0, // correlation
    0xfe, 0xff, 0xff, 0xff, // stream
    0x09, 0, 0, 0, 0x61, 0x65, 0x72, 0x6f, 0x6e, 0x3a, 0x75, 0x64, 0x70, // channel
];

/// REMOVE_PUBLICATION of client 1 with correlation id 13, for registration 3.
const REMOVE_PUBLICATION: [u8; 28] = [
    0x02, 0, 0, 0, // type
    0x01, 0, 0, 0, 0, 0, 0, 0, // client
    0x0d, 0, 0, 0, 0, 0, 0, 0, // correlation
    0x03, 0, 0, 0, 0, 0, 0, 0, // registration
];

/// ADD_SUBSCRIPTION of client 1 with correlation id 11: `aeron:ipc`, stream 10.
const SUBSCRIBE: [u8; 45] = [
    0x04, 0, 0, 0, // type
    0x01, 0, 0, 0, 0, 0, 0, 0, // client
    0x0b, 0, 0, 0, 0, 0, 0, 0, // correlation
    0, 0, 0, 0, 0, 0, 0, 0, // registration correlation
    0x0a, 0, 0, 0, // stream
    0x09, 0, 0, 0, 0x61, 0x65, 0x72, 0x6f, 0x6e, 0x3a, 0x69, 0x70, 0x63, // channel
];

/// ADD_SUBSCRIPTION whose numbers have each byte, both signs, and the greatest value.
const ODD_SUBSCRIBE: [u8; 36] = [
    0x04, 0, 0, 0, // type
    0x08, 0x07, 0x06, 0x05, 0x04, 0x03, 0x02, 0x01, // client
    0xff, 0xff, 0xff, 0xff, 0xff, 0xff, 0xff, 0xff, // correlation
    0x01, 0, 0, 0, 0, 0, 0, 0, // registration correlation
    0xfe, 0xff, 0xff, 0xff, // stream
    0, 0, 0, 0, // channel
];

/// REMOVE_SUBSCRIPTION of client 1 with correlation id 13, for registration 1.
const REMOVE_SUBSCRIPTION: [u8; 28] = [
    0x05, 0, 0, 0, // type
    0x01, 0, 0, 0, 0, 0, 0, 0, // client
    0x0d, 0, 0, 0, 0, 0, 0, 0, // correlation
    0x01, 0, 0, 0, 0, 0, 0, 0, // registration
];

/// CLIENT_KEEPALIVE of client 2 with correlation id 7.
const KEEPALIVE: [u8; 20] = [
    0x06, 0, 0, 0, // type
    0x02, 0, 0, 0, 0, 0, 0, 0, // client
    0x07, 0, 0, 0, 0, 0, 0, 0, // correlation
];

/// ADD_DESTINATION of client 1 with correlation id 14: `aeron:udp?endpoint=127.0.0.1:40201` for registration 1.
const ADD_DESTINATION: [u8; 66] = [
    0x07, 0, 0, 0, // type
    0x01, 0, 0, 0, 0, 0, 0, 0, // client
    0x0e, 0, 0, 0, 0, 0, 0, 0, // correlation
    0x01, 0, 0, 0, 0, 0, 0, 0, // registration
    0x22, 0, 0, 0, 0x61, 0x65, 0x72, 0x6f, 0x6e, 0x3a, 0x75, 0x64, 0x70, 0x3f, 0x65, 0x6e, 0x64,
    0x70, 0x6f, 0x69, 0x6e, 0x74, 0x3d, 0x31, 0x32, 0x37, 0x2e, 0x30, 0x2e, 0x30, 0x2e, 0x31, 0x3a,
    0x34, 0x30, 0x32, 0x30, 0x31, // channel
];

/// REMOVE_DESTINATION of client 2 with correlation id 15: `aeron:udp` for registration 258.
const REMOVE_DESTINATION: [u8; 41] = [
    0x08, 0, 0, 0, // type
    0x02, 0, 0, 0, 0, 0, 0, 0, // client
    0x0f, 0, 0, 0, 0, 0, 0, 0, // correlation
    0x02, 0x01, 0, 0, 0, 0, 0, 0, // registration
    0x09, 0, 0, 0, 0x61, 0x65, 0x72, 0x6f, 0x6e, 0x3a, 0x75, 0x64, 0x70, // channel
];

/// ADD_COUNTER of client 3 with correlation id 5: type 100, a key of three bytes, label `ab`.
const ADD_COUNTER: [u8; 37] = [
    0x09, 0, 0, 0, // type
    0x03, 0, 0, 0, 0, 0, 0, 0, // client
    0x05, 0, 0, 0, 0, 0, 0, 0, // correlation
    0x64, 0, 0, 0, // type id
    0x03, 0, 0, 0, 0x00, 0xff, 0x80, // key
    0x02, 0, 0, 0, 0x61, 0x62, // label
];

/// REMOVE_COUNTER of client 3 with correlation id 7: counter 258.
const REMOVE_COUNTER: [u8; 28] = [
    0x0a, 0, 0, 0, // type
    0x03, 0, 0, 0, 0, 0, 0, 0, // client
    0x07, 0, 0, 0, 0, 0, 0, 0, // correlation
    0x02, 0x01, 0, 0, 0, 0, 0, 0, // registration
];

/// CLIENT_CLOSE of client 2 with correlation id 8.
const CLOSE: [u8; 20] = [
    0x0b, 0, 0, 0, // type
    0x02, 0, 0, 0, 0, 0, 0, 0, // client
    0x08, 0, 0, 0, 0, 0, 0, 0, // correlation
];

/// TERMINATE_DRIVER of client 2 with correlation id 9, and a token of three bytes.
const TERMINATE: [u8; 27] = [
    0x0e, 0, 0, 0, // type
    0x02, 0, 0, 0, 0, 0, 0, 0, // client
    0x09, 0, 0, 0, 0, 0, 0, 0, // correlation
    0x03, 0, 0, 0, 0x00, 0xff, 0x80, // token
];

/// SET_COUNTER of client 3 with correlation id 6: counter 258 becomes -2.
const SET: [u8; 36] = [
    0x01, 0x10, 0, 0, // type
    0x03, 0, 0, 0, 0, 0, 0, 0, // client
    0x06, 0, 0, 0, 0, 0, 0, 0, // correlation
    0x02, 0x01, 0, 0, 0, 0, 0, 0, // registration
    0xfe, 0xff, 0xff, 0xff, 0xff, 0xff, 0xff, 0xff, // value
];

/// The same for the least value.
const SET_LEAST: [u8; 36] = [
    0x01, 0x10, 0, 0, 0x03, 0, 0, 0, 0, 0, 0, 0, 0x06, 0, 0, 0, 0, 0, 0, 0, 0x02, 0x01, 0, 0, 0, 0,
    0, 0, 0, 0, 0, 0, 0, 0, 0, 0x80,
];

/// The same for the greatest value.
const SET_GREATEST: [u8; 36] = [
    0x01, 0x10, 0, 0, 0x03, 0, 0, 0, 0, 0, 0, 0, 0x06, 0, 0, 0, 0, 0, 0, 0, 0x02, 0x01, 0, 0, 0, 0,
    0, 0, 0xff, 0xff, 0xff, 0xff, 0xff, 0xff, 0xff, 0x7f,
];

/// What a command asks for, written without memory.
#[derive(Clone, Copy)]
enum Plain {
    AddPublication(i32, &'static str),
    RemovePublication(u64),
    AddExclusivePublication(i32, &'static str),
    AddSubscription(u64, i32, &'static str),
    RemoveSubscription(u64),
    ClientKeepalive,
    AddDestination(u64, &'static str),
    RemoveDestination(u64, &'static str),
    AddCounter(i32, &'static [u8], &'static str),
    RemoveCounter(u64),
    ClientClose,
    TerminateDriver(&'static [u8]),
    SetCounter(u64, i64),
}

fn publication(alloc: Global, stream: i32, channel: &str) -> Result<AddPublication, AllocError> {
    let channel = Text::new(alloc, channel)?;
    Ok(AddPublication { stream, channel })
}

fn subscription(
    alloc: Global,
    registration_correlation: u64,
    stream: i32,
    channel: &str,
) -> Result<AddSubscription, AllocError> {
    let channel = Text::new(alloc, channel)?;
    Ok(AddSubscription {
        registration_correlation,
        stream,
        channel,
    })
}

fn destination(alloc: Global, registration: u64, channel: &str) -> Result<Destination, AllocError> {
    let channel = Text::new(alloc, channel)?;
    Ok(Destination {
        registration,
        channel,
    })
}

fn counter(type_id: i32, key: &[u8], label: &str) -> Result<AddCounter, CommandFault> {
    if key.len() > 112 || label.len() > 380 {
        return Err(CommandFault::Malformed);
    }
    Ok(AddCounter {
        type_id,
        key: ShortBytes::new(key),
        label: ShortText::new(label),
    })
}

/// A body without bytes of its own.
fn short(plain: Plain) -> Body {
    match plain {
        Plain::RemovePublication(registration) => Body::RemovePublication(Removal { registration }),
        Plain::RemoveSubscription(registration) => {
            Body::RemoveSubscription(Removal { registration })
        }
        Plain::ClientKeepalive => Body::ClientKeepalive,
        Plain::RemoveCounter(registration) => Body::RemoveCounter(Removal { registration }),
        Plain::SetCounter(registration, value) => Body::SetCounter(SetCounter {
            registration,
            value,
        }),
        _ => Body::ClientClose,
    }
}

/// A body that names a channel, or one without bytes.
fn named(alloc: Global, plain: Plain) -> Result<Body, AllocError> {
    match plain {
        Plain::AddPublication(stream, channel) => {
            Ok(Body::AddPublication(publication(alloc, stream, channel)?))
        }
        Plain::AddExclusivePublication(stream, channel) => {
            Ok(Body::AddExclusivePublication(publication(alloc, stream, channel)?))
        }
        Plain::AddSubscription(other, stream, channel) => Ok(Body::AddSubscription(subscription(
            alloc, other, stream, channel,
        )?)),
        Plain::AddDestination(registration, channel) => Ok(Body::AddDestination(destination(
            alloc,
            registration,
            channel,
        )?)),
        Plain::RemoveDestination(registration, channel) => Ok(Body::RemoveDestination(destination(
            alloc,
            registration,
            channel,
        )?)),
        _ => Ok(short(plain)),
    }
}

fn body(alloc: Global, plain: Plain) -> Result<Body, CommandFault> {
    match plain {
        Plain::AddCounter(type_id, key, label) => {
            Ok(Body::AddCounter(counter(type_id, key, label)?))
        }
        Plain::TerminateDriver(token) => Ok(Body::TerminateDriver(TerminateDriver {
            token: Bytes::new(alloc, token)?,
        })),
        _ => Ok(named(alloc, plain)?),
    }
}

/// The client, the correlation id and the rest of a command, and its bytes.
type Row = (u64, u64, Plain, &'static [u8]);

static COMMANDS: [Row; 16] = [
    (1, 12, Plain::AddPublication(10, "aeron:ipc"), &ADD),
    (
        2,
        258,
        Plain::AddExclusivePublication(-2, "aeron:udp"),
        &ADD_EXCLUSIVE,
    ),
    (1, 13, Plain::RemovePublication(3), &REMOVE_PUBLICATION),
    (
        1,
        11,
        Plain::AddSubscription(0, 10, "aeron:ipc"),
        &SUBSCRIBE,
    ),
    (
        0x0102_0304_0506_0708,
        u64::MAX,
        Plain::AddSubscription(1, -2, ""),
        &ODD_SUBSCRIBE,
    ),
    (1, 13, Plain::RemoveSubscription(1), &REMOVE_SUBSCRIPTION),
    (2, 7, Plain::ClientKeepalive, &KEEPALIVE),
    (
        1,
        14,
        Plain::AddDestination(1, "aeron:udp?endpoint=127.0.0.1:40201"),
        &ADD_DESTINATION,
    ),
    (
        2,
        15,
        Plain::RemoveDestination(258, "aeron:udp"),
        &REMOVE_DESTINATION,
    ),
    (
        3,
        5,
        Plain::AddCounter(100, &[0x00, 0xff, 0x80], "ab"),
        &ADD_COUNTER,
    ),
    (3, 7, Plain::RemoveCounter(258), &REMOVE_COUNTER),
    (2, 8, Plain::ClientClose, &CLOSE),
    (
        2,
        9,
        Plain::TerminateDriver(&[0x00, 0xff, 0x80]),
        &TERMINATE,
    ),
    (3, 6, Plain::SetCounter(258, -2), &SET),
    (3, 6, Plain::SetCounter(258, i64::MIN), &SET_LEAST),
    (3, 6, Plain::SetCounter(258, i64::MAX), &SET_GREATEST),
];

/// Whether the command is written as these bytes.
fn is_written(alloc: Global, command: &Command, bytes: &[u8]) -> bool {
    match command.write(alloc) {
        Ok(written) => written.as_slice() == bytes,
        Err(_) => false,
    }
}

fn is(found: Command, command: &Command) -> bool {
    let same = found == *command;
    drop(found);
    same
}

/// Whether these bytes are read as the command.
fn is_read(alloc: Global, command: &Command, bytes: &[u8]) -> bool {
    match Command::read(alloc, bytes) {
        Ok(read) => is(read, command),
        Err(_) => false,
    }
}

fn is_copied(alloc: Global, command: &Command) -> bool {
    match command.copy(alloc) {
        Ok(copy) => is(copy, command),
        Err(_) => false,
    }
}

/// Whether the command is written as the bytes, read from them, copied, and named by its correlation id.
fn has_bytes(alloc: Global, command: Command, bytes: &[u8]) -> bool {
    let named = Command::correlation_of(bytes) == command.correlation;
    let same = is_written(alloc, &command, bytes)
        & is_read(alloc, &command, bytes)
        & is_copied(alloc, &command);
    drop(command);
    named & same
}

fn is_row(alloc: Global, row: Row) -> bool {
    let (client, correlation, plain, bytes) = row;
    match body(alloc, plain) {
        Ok(body) => {
            let command = Command {
                client,
                correlation,
                body,
            };
            has_bytes(alloc, command, bytes)
        }
        Err(_) => false,
    }
}

/// Whether the command of each row has the bytes of the row.
fn are_rows(alloc: Global, rows: &[Row]) -> bool {
    for &row in rows {
        if !is_row(alloc, row) {
            return false;
        }
    }
    true
}

/// The bytes of another correlation id.
static OTHER: [Row; 1] = [(2, 6, Plain::ClientKeepalive, &KEEPALIVE)];

/// With ample memory.
#[test]
fn commands_have_their_bytes(rt: HostRuntime) {
    assert!(rt; are_rows(rt.alloc(), &COMMANDS) & !are_rows(rt.alloc(), &OTHER));
}
