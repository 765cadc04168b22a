//! Tests of `log_traffic`: of the datagrams that are due.

use frame_codec::{Flags, StatusMessage};
use log_traffic::{Pace, StatusAnswer, next_datagram, pass, receive_status};
use std::alloc::Global;
use term_log::{Ident, LogKind, TermLog};

const PACE: Pace = Pace {
    connection_timeout: 5_000_000_000,
    setup_interval: 100_000_000,
    heartbeat_interval: 100_000_000,
};

// Session 1, stream 10: terms of 64 KiB from term 0 on.
pub(crate) const STREAM: Ident = Ident {
    kind: LogKind::Udp,
    session: 1,
    stream: 10,
    initial_term: 0,
    term_length: 65_536,
    mtu: 1408,
    start: 0,
};

// The bytes of the datagram that is cut at a moment: none where nothing is due, `None` where there is no answer.
pub(crate) fn cut(log: &mut TermLog, alloc: Global, now: u64, lingers: bool) -> Option<Vec<u8>> {
    match log.ident().kind {
        LogKind::Ipc => None,
        LogKind::Udp => match next_datagram(log, alloc, now, &PACE, lingers) {
            Ok(Some(next)) => {
                pass(log, now, &next.cut);
                Some(next.bytes)
            }
            Ok(None) => Some(Vec::new(alloc)),
            Err(_) => None,
        },
    }
}

// A status message of term 0.
pub(crate) fn status(log: &mut TermLog, flags: Flags, offset: u32, window: u32) -> StatusAnswer {
    let message = StatusMessage {
        flags,
        session_id: 1,
        stream_id: 10,
        consumption_term_id: 0,
        consumption_term_offset: offset,
        receiver_window: window,
        receiver_id: 1,
    };
    receive_status(log, 0, &message)
}
