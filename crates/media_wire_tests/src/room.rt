ghost use Rattle.media_wire.specs.Events.{Event};
ghost use Rattle.std.specs.Prelude.{◌≤◌, ◌++◌, List, vec_len};
ghost use Rattle.media_wire_tests.specs.Draining.{Drains};

use crate::draining::drain;
use channel_uri::Address;
use media_wire::{LONGEST, Wire};
use std::alloc::{AllocError, Global};

/// Room for the longest datagram.
#[derive(Drop)]
pub struct Room {
    bytes: Vec<u8>,
    ghost long: { 65507 ≤ vec_len bytes },
}

impl Room {
    pub fn new(alloc: Global) -> Result<Room, AllocError> {
        Ok(Room {
            bytes: vec![in alloc; 0u8; LONGEST]?,
        })
    }

    /// Reads at an address until none is there or a read fails, at most so many datagrams. How many were read.
    pub fn drain<W: Wire>(&mut self, wire: &mut W, local: &Address, most: u64) -> u64
        ensures { (events : List Event) → W.went wire.old events
            → (more : List Event) × W.went wire.new (events ++ more) × Drains local.now most result more }
    {
        drain(wire, local, most, &mut self.bytes)
    }
}
