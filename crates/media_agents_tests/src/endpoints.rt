// Who is at the other end of a memory network: sockets that a test sends from and reads at.
use driver_core::Address;
use frame_codec::{Datagram, Flags, Packet, Setup, StatusMessage, write_setup, write_sm};
use media_wire::{LONGEST, Network, Wire};
use std::alloc::Global;

// This machine.
pub const HOST: [u8; 4] = [127, 0, 0, 1];

// A status message that asks for a SETUP, of no position: by its session and stream it names a publication.
pub fn asking(session_id: i32, stream_id: i32) -> StatusMessage {
    StatusMessage {
        flags: Flags::SEND_SETUP,
        session_id,
        stream_id,
        consumption_term_id: 0,
        consumption_term_offset: 0,
        receiver_window: 0,
        receiver_id: 1,
    }
}

// It goes from there to a control address.
pub fn ask(wire: &mut Network, from: &Address, to: &Address, message: &StatusMessage) {
    let mut bytes = [0; StatusMessage::SIZE];
    write_sm(&mut bytes, message);
    bytes[5] = message.flags.bits;
    let _ = wire.send(from, to, &bytes);
}

// A publisher's SETUP goes from there to an endpoint.
pub fn set_up(wire: &mut Network, from: &Address, to: &Address, setup: &Setup) {
    let mut bytes = [0; Setup::SIZE];
    write_setup(&mut bytes, setup);
    let _ = wire.send(from, to, &bytes);
}

// What the next datagram that came there is: of a status message all its fields.
#[derive(Clone, Copy, PartialEq, Eq)]
pub enum Came {
    Setup,
    StatusMessage(StatusMessage),
    Other,
}

// What these bytes are.
fn read_as(bytes: &[u8]) -> Came {
    match Datagram::read(bytes) {
        Ok(Packet::Setup(_)) => Came::Setup,
        Ok(Packet::Sm(message)) => Came::StatusMessage(message),
        _ => Came::Other,
    }
}

// The next datagram that came to an address, with the address that it is from; `None` where none is there, or no memory.
pub fn next(wire: &mut Network, alloc: Global, local: &Address) -> Option<(Came, Address)> {
    let mut bytes = vec![in alloc; 0u8; LONGEST].ok()?;
    match wire.recv(local, &mut bytes) {
        Ok(Some((length, from))) => Some((read_as(&bytes[..length]), from)),
        _ => None,
    }
}
