use crate::ends::{Choppy, LineFeeds};
use crate::play::run_into;
use driver_script::{MayFail, RunFault, script};
use std::alloc::Global;

const FIRST: &str =
    "principal alice 7\nset arena-pages 1\npolicy\nversion = 1\ndefault = \"deny\"\n.\nattach 0 7\n\
cmd 0 1 04000000_0100000000000000_0b00000000000000_0000000000000000_0a000000_09000000_6165726f6e3a697063\n";

const FIRST_ANSWERS: &str =
    "attached 1\nreply 1 010f00000b00000000000000e90300001d00000064656e696564206279206465\
6661756c7420696e20706f6c6963792031\n";

/// Whether a writer that takes so many bytes has so many of the answers.
fn has_a_front(alloc: Global, room: usize) -> bool {
    let (ended, written) = run_into(alloc, FIRST, room);
    (ended == Err(RunFault::Write))
        & (written.len() == room)
        & FIRST_ANSWERS.as_bytes().starts_with(written.as_slice())
}

/// Of how many bytes a writer has the front of the answers, and whether it has.
static FRONTS: [(usize, bool); 5] = [(0, true), (5, true), (11, true), (20, true), (1000, false)];

fn have_fronts(alloc: Global, rows: &[(usize, bool)]) -> bool {
    for &(room, wanted) in rows {
        if has_a_front(alloc, room) != wanted {
            return false;
        }
    }
    true
}

#[test]
fn a_writer_that_fails_has_a_front(rt: HostRuntime) {
    assert!(rt; have_fronts(rt.alloc(), &FRONTS));
}

/// Whether a reader that fails after so many bytes ends the script by this fault, and nothing is written.
fn fails_to_read(alloc: Global, left: usize, fault: RunFault) -> bool {
    let mut reader = MayFail(LineFeeds { left, fails: true });
    let mut writer = MayFail(Choppy::new(alloc, 1000, true));
    let ended = script::run(alloc, &mut reader, &mut writer);
    (ended == Err(fault)) & writer.0.taken.is_empty()
}

/// Behind how many bytes a reader fails, a fault, and whether the script ends by it.
static FAILED: [(usize, RunFault, bool); 3] = [
    (5000, RunFault::Read, true),
    (16_777_217, RunFault::TooLong, true),
    (16_777_217, RunFault::Read, false),
];

fn fail_to_read(alloc: Global, rows: &[(usize, RunFault, bool)]) -> bool {
    for &(left, fault, wanted) in rows {
        if fails_to_read(alloc, left, fault) != wanted {
            return false;
        }
    }
    true
}

#[test]
fn a_reader_that_fails_writes_nothing(rt: HostRuntime) {
    assert!(rt; fail_to_read(rt.alloc(), &FAILED));
}
