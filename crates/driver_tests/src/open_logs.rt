//! An open log by itself, as it moves from hand to hand.

use driver_core::Settings;
use log_arena::Arena;
use log_steps::OpenLog;
use std::alloc::{AllocError, Global};
use term_log::{Ident, LogKind, LogRoom};

const IDENT: Ident = Ident {
    kind: LogKind::Ipc,
    session: 1,
    stream: 10,
    initial_term: 0,
    term_length: 65_536,
    mtu: 1_408,
    start: 0,
};

/// Whether a log that is new says so, and who reads it.
fn is_new(log: &OpenLog) -> bool {
    log.has_whole();
    (log.source() == 7) & (log.reach() == 0) & (log.messages() == 0)
}

/// Whether the log of a publication opens, is read and closes.
fn moves(arena: &mut Arena, room: LogRoom) -> bool {
    match arena.lease(196_608) {
        Ok(lease) => {
            let mut log = OpenLog::of_publication(room, lease, 7, IDENT, Settings::default());
            let joins = log.join(3);
            log.leave(3);
            log.rejoin(&[4]);
            let is_new = is_new(&log);
            let lease = log.close();
            let len = lease.len();
            drop(lease);
            is_new & (joins == 0) & (len == 196_608)
        }
        Err(_) => {
            drop(room);
            false
        }
    }
}

fn opens_and_closes(alloc: Global) -> Result<bool, AllocError> {
    let room = LogRoom::new(alloc)?;
    match Arena::new(alloc, 48) {
        Ok(mut arena) => {
            let moved = moves(&mut arena, room);
            drop(arena);
            Ok(moved)
        }
        Err(refused) => {
            drop(room);
            Err(refused)
        }
    }
}

#[test]
fn an_open_log_moves_from_hand_to_hand(rt: HostRuntime) {
    assert!(rt; opens_and_closes(rt.alloc()) == Ok(true));
}
