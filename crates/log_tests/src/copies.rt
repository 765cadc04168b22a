//! Copies of fragments, and the room that they are made with.

use std::alloc::Global;
use term_log::FragmentCopies;

/// Whether copies are made with so much room.
fn are_made(alloc: Global, room: usize) -> bool {
    FragmentCopies::new(alloc, room).is_ok()
}

// No contract says what room is good for. No memory has 2^62 bytes, so copies that are made with room for as many took none.
#[test]
fn copies_take_their_room_at_once(rt: HostRuntime) {
    assert!(rt;
        are_made(rt.alloc(), 0) & are_made(rt.alloc(), 4096) & !are_made(rt.alloc(), 1 << 62)
    );
}
