//! Plays that go as they should, each from its beginning.

use crate::stream_play::{Play, without_streams};
use crate::{differing, imaging, leaving, limits, pairing, placing, publishing, sessions};
use std::alloc::Global;

fn all_are_taken(play: &mut Play) -> bool {
    differing::are_taken(play)
        & imaging::are_taken(play)
        & leaving::are_taken(play)
        & limits::are_taken(play)
        & pairing::are_taken(play)
        & placing::are_taken(play)
        & publishing::are_taken(play)
        & sessions::are_taken(play)
}

fn go_as_they_should(alloc: Global) -> bool {
    match without_streams(alloc) {
        Ok(mut play) => {
            let taken = all_are_taken(&mut play);
            drop(play);
            taken
        }
        Err(_) => false,
    }
}

#[test]
fn streams_go_as_they_should(rt: HostRuntime) {
    assert!(rt; go_as_they_should(rt.alloc()));
}
