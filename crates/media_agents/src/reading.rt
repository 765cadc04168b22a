//! The datagrams that come to one address.

ghost use Rattle.media_agents.specs.Acts.{GoesOn, Trail};
ghost use Rattle.media_agents.specs.Traffic.{IsReading};
ghost use Rattle.std.specs.Prelude.{◌≡◌, ◌≤◌, ◌∷◌, [], IfSome, take, vec_len};

use crate::gate::Turn;
use crate::stepping::Stepping;
use channel_uri::Address;
use drop_tallies::Miss;
use frame_codec::Setup;
use media_wire::{LONGEST, Wire};
use rows::Rows;
use std::alloc::{AllocError, Global};
use std::sync::Wait;

/// How many datagrams a turn reads at one address at most.
pub(crate) const MOST: u32 = 1024;

/// Where datagrams come: the descriptors of sockets.
pub(crate) type Sockets = Rows<i32, 512>;

/// Notes the socket at an address, if there is one.
fn note_socket<W: Wire>(wire: &W, at: &Address, sockets: &mut Sockets) {
    if let Some(socket) = wire.descriptor(at) {
        if sockets.len() < 512 {
            sockets.push(socket);
        }
    }
}

/// Notes those at each of these addresses, if an agent sleeps before that turn.
pub(crate) fn note_sockets<W: Wire>(turn: Turn, wire: &W, all: &[Address], sockets: &mut Sockets) {
    if !turn.sleeps() {
        return;
    }
    for at in all {
        note_socket(wire, at, sockets);
    }
}

/// A datagram of that length went or came: whether there was one that may have messages, since it is longer than a SETUP. What
/// else comes and goes does so now and then on logs that nobody uses too.
pub(crate) fn note_length(lively: &mut bool, length: usize) {
    if length > Setup::SIZE {
        *lively = true;
    }
}

/// Room for the longest datagram.
#[derive(Drop)]
pub(crate) struct Room {
    bytes: Vec<u8>,
    ghost long: { 65507 ≤ vec_len bytes },
}

impl Room {
    pub(crate) fn new(alloc: Global) -> Result<Room, AllocError> {
        Ok(Room {
            bytes: vec![in alloc; 0u8; LONGEST]?,
        })
    }

    /// Reads the next datagram that came to an address: how long it is, and where it is from. `None` where none is there, or
    /// the read failed, which is counted.
    pub(crate) fn next<R: Wait, S: Stepping, W: Wire>(
        &mut self,
        rt: &R,
        steps: &mut S,
        wire: &mut W,
        local: &Address,
    ) -> Option<(usize, Address)>
        ensures within { IfSome result (λ read. read.0 ≤ vec_len self.new.bytes) }
        ensures wire { GoesOn (IsReading local.now result self.new.bytes.items) (Trail (S.did steps.old) (W.went wire.old)) (Trail (S.did steps.new) (W.went wire.new)) }
    {
        match wire.recv(local, &mut self.bytes) {
            Ok(read) => read,
            Err(_) => {
                steps.note(rt, Miss::Unheard, local);
                None
            }
        }
    }

    /// The bytes of the datagram that was read last, which is so long.
    pub(crate) fn datagram(&self, length: usize) -> &[u8]
        requires { length ≤ vec_len self.now.bytes }
        ensures { result.now ≡ take length self.now.bytes.items }
    {
        &self.bytes[..length]
    }
}
