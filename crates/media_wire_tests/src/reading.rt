ghost use Rattle.std.specs.Prelude.{◌≤◌, length, IfSome};

use channel_uri::Address;
use media_wire::{Wire, WireFault};

/// An address of this machine.
pub(crate) fn at(port: u16) -> Address {
    Address {
        octets: [127, 0, 0, 1],
        port,
    }
}

/// The next datagram that comes to an address within a million tries: its length, and where it is from.
pub(crate) fn awaited<W: Wire>(
    wire: &mut W,
    local: &Address,
    buffer: &mut [u8],
) -> Option<(usize, Address)>
    requires { 65507 ≤ length buffer.old }
    ensures { IfSome result (λ read. read.0 ≤ length buffer.new) }
{
    for _ in 0..1_000_000 {
        match wire.recv(local, buffer) {
            Ok(Some(read)) => return Some(read),
            Ok(None) => {}
            Err(_) => return None,
        }
    }
    None
}

/// Whether these bytes, from that address, come to an address.
pub(crate) fn comes<W: Wire>(
    wire: &mut W,
    local: &Address,
    from: &Address,
    bytes: &[u8],
    buffer: &mut [u8],
) -> bool
    requires { 65507 ≤ length buffer.old }
{
    match awaited(wire, local, buffer) {
        Some((count, sender)) => sender.is(from) && &buffer[..count] == bytes,
        None => false,
    }
}

/// Whether nothing is there to read.
pub(crate) fn is_silent<W: Wire>(wire: &mut W, local: &Address, buffer: &mut [u8]) -> bool
    requires { 65507 ≤ length buffer.old }
{
    wire.recv(local, buffer) == Ok(None)
}

/// Whether a read fails.
pub(crate) fn is_faulty<W: Wire>(wire: &mut W, local: &Address, buffer: &mut [u8]) -> bool
    requires { 65507 ≤ length buffer.old }
{
    wire.recv(local, buffer) == Err(WireFault)
}
