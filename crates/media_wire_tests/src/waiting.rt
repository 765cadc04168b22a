ghost use Rattle.std.specs.Prelude.{◌≤◌, length};

use crate::reading::{at, comes, is_silent};
use crate::sockets::first_port;
use media_wire::{Bell, LONGEST, Udp, Wire};
use std::process;
use std::test::Fail;

/// Longer than a test may take, in milliseconds.
const FOR_EVER: i32 = 600_000;

/// Whether a wait ends at a datagram. One that doesn't lasts longer than the test may.
fn ends_at_a_datagram<W: Wire>(wire: &mut W, bell: &Bell, port: u16, buffer: &mut [u8]) -> bool
    requires { 65507 ≤ length buffer.old }
{
    let here = at(port);
    if wire.descriptor(&here).is_some() || !is_silent(wire, &here, buffer) {
        return false;
    }
    let Some(socket) = wire.descriptor(&here) else {
        return false;
    };
    bell.wait(&[socket], 0);
    if wire.send(&here, &here, b"abc").is_err() {
        return false;
    }
    bell.wait(&[socket], FOR_EVER);
    comes(wire, &here, &here, b"abc", buffer)
}

#[test]
fn waits_end(rt: HostRuntime) -> Result<(), Fail> {
    let mut buffer = vec![in rt.alloc(); 0u8; LONGEST]?;
    let mut wire = Udp::new(rt.alloc(), rt, 4)?;
    let bell = Bell::new();
    let port = first_port(process::id(rt.process())).wrapping_add(7);
    assert!(rt; ends_at_a_datagram(&mut wire, &bell, port, &mut buffer));
    bell.ring();
    bell.wait(&[], FOR_EVER);
    bell.ring();
    bell.ring();
    bell.wait(&[], FOR_EVER);
    bell.wait(&[], 0);
    Ok(())
}
