//! Tests of `log_traffic`: of what is received.

use crate::shuffling::hand_in;
use frame_codec::TermPlace;
use image_log::{ImageLog, Insert};
use log_traffic::{Due, Receiver, Status, receive_beat};
use retransmit_gate::Nak;

// Moments, and whether a NAK and a status message are due then.
static TICKS: [(u64, bool, bool); 5] = [
    (0, false, true),
    (1_000_000, false, false),
    (1_000_001, true, false),
    (61_000_001, false, false),
    (61_000_002, true, false),
];

// What is due of a gap of 64 bytes from 0 on.
fn due(nak: bool, status: bool) -> Due {
    let missing = Nak {
        position: 0,
        length: 64,
    };
    let told = Status {
        base: 0,
        window: 32_768,
    };
    Due {
        nak: if nak { Some(missing) } else { None },
        status: if status { Some(told) } else { None },
    }
}

fn ticks(receiver: &mut Receiver, log: &mut ImageLog) -> bool {
    let mut same = true;
    for &(now, nak, status) in &TICKS {
        let turn = receiver.due(now, log);
        same &= turn.due == due(nak, status);
        receiver.pass(now, log, turn);
    }
    same
}

/// Whether NAKs and status messages are due in their time, of a gap in front of one frame. A subscription reads the log.
pub(crate) fn is_answered_in_time(log: &mut ImageLog) -> bool {
    let late = hand_in(log, 64, 1) == Some(Insert::Taken);
    let mut receiver = Receiver::new(200_000_000, 1_000_000, 60_000_000);
    late && ticks(&mut receiver, log)
}

/// Whether a heartbeat reports the gap in front of it, and when it came.
pub(crate) fn beat_is_heard(log: &mut ImageLog) -> bool {
    let place = TermPlace {
        session_id: 9,
        stream_id: 10,
        term_id: 5,
        term_offset: 96,
    };
    receive_beat(log, 1000, &place);
    (log.gap() == Some((0, 96))) & log.silent(1201, 200) & !log.silent(1200, 200)
}
