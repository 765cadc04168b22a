ghost use Rattle.std.specs.Prelude.{◌≤◌, length};

use crate::reading::{at, awaited, comes, is_faulty, is_silent};
use channel_uri::Address;
use frame_codec::{Datagram, Flags, Packet, StatusMessage, write_sm};
use media_wire::{LONGEST, Shared, Udp, Wire, WireFault};
use std::net::Net;
use std::process;
use std::test::Fail;

/// The first of eight ports that no other test of this machine is likely to use.
pub(crate) fn first_port(number: u32) -> u16 {
    (10_000 + number % 2_700 * 8) as u16
}

const MESSAGE: StatusMessage = StatusMessage {
    flags: Flags::NONE,
    session_id: 1,
    stream_id: 10,
    consumption_term_id: 0,
    consumption_term_offset: 64,
    receiver_window: 32_768,
    receiver_id: 1,
};

/// Whether a status message goes from one wire to the other, and nothing else.
fn exchange<A: Wire, B: Wire>(one: &mut A, other: &mut B, port: u16, buffer: &mut [u8]) -> bool
    requires { 65507 ≤ length buffer.old }
{
    let mut bytes = [0; StatusMessage::SIZE];
    write_sm(&mut bytes, &MESSAGE);
    let (here, there) = (at(port), at(port.wrapping_add(1)));
    if !is_silent(other, &there, buffer) || one.send(&here, &there, &bytes).is_err() {
        return false;
    }
    let came = match awaited(other, &there, buffer) {
        Some((count, from)) => match Datagram::read(&buffer[..count]) {
            Ok(Packet::Sm(message)) => from.is(&here) && message == MESSAGE,
            _ => false,
        },
        None => false,
    };
    came && is_silent(other, &there, buffer) && one.failures() == 0 && other.failures() == 0
}

#[test]
fn datagrams_over_sockets(rt: HostRuntime) -> Result<(), Fail> {
    let mut buffer = vec![in rt.alloc(); 0u8; LONGEST]?;
    let mut one = Udp::new(rt.alloc(), rt, 4)?;
    let mut other = Udp::new(rt.alloc(), rt, 4)?;
    let port = first_port(process::id(rt.process()));
    assert!(rt; exchange(&mut one, &mut other, port, &mut buffer));
    Ok(())
}

/// Whether an address that another one has can't be opened, and can be once that one is closed.
fn tries_again<N: Net + Drop, M: Net + Drop>(
    mut one: Udp<N>,
    other: &mut Udp<M>,
    port: u16,
    buffer: &mut [u8],
) -> bool
    requires { 65507 ≤ length buffer.old }
{
    let here = at(port);
    let first = is_silent(&mut one, &here, buffer);
    let second = is_faulty(other, &here, buffer)
        && other.send(&here, &here, b"a") == Err(WireFault);
    let counted = one.failures() == 0 && other.failures() == 2;
    drop(one);
    first && second && counted && is_silent(other, &here, buffer) && other.failures() == 2
}

#[test]
fn opened_again_at_the_next_call(rt: HostRuntime) -> Result<(), Fail> {
    let mut buffer = vec![in rt.alloc(); 0u8; LONGEST]?;
    let one = Udp::new(rt.alloc(), rt, 4)?;
    let mut other = Udp::new(rt.alloc(), rt, 4)?;
    let port = first_port(process::id(rt.process())).wrapping_add(2);
    assert!(rt; tries_again(one, &mut other, port, &mut buffer));
    Ok(())
}

/// Whether sending where nobody reads fails neither at once nor later.
fn is_lost_in_silence<W: Wire>(wire: &mut W, port: u16, buffer: &mut [u8]) -> bool
    requires { 65507 ≤ length buffer.old }
{
    let (here, nowhere) = (at(port), at(port.wrapping_add(1)));
    let mut well = true;
    for _ in 0..10 {
        well = well && wire.send(&here, &nowhere, b"abc").is_ok() && is_silent(wire, &here, buffer);
    }
    well && wire.failures() == 0
}

/// Whether the longest datagram comes whole, and a longer one is a failure.
fn has_an_end<W: Wire>(wire: &mut W, port: u16, long: &[u8], buffer: &mut [u8]) -> bool
    requires room { 65507 ≤ length buffer.old }
    requires long { 65507 ≤ length long.now }
{
    let here = at(port);
    wire.send(&here, &here, &long[..LONGEST]).is_ok()
        && comes(wire, &here, &here, &long[..LONGEST], buffer)
        && wire.send(&here, &here, long) == Err(WireFault)
        && wire.failures() == 1
        && wire.send(&here, &here, b"").is_ok()
        && comes(wire, &here, &here, b"", buffer)
}

#[test]
fn lost_and_long_datagrams(rt: HostRuntime) -> Result<(), Fail> {
    let mut buffer = vec![in rt.alloc(); 0u8; LONGEST]?;
    let long = vec![in rt.alloc(); 7u8; LONGEST + 1]?;
    let mut wire = Udp::new(rt.alloc(), rt, 4)?;
    let port = first_port(process::id(rt.process())).wrapping_add(4);
    assert!(rt; is_lost_in_silence(&mut wire, port, &mut buffer));
    assert!(rt; has_an_end(&mut wire, port, &long, &mut buffer));
    Ok(())
}

/// Whether the socket that was not used for the longest makes room for another.
fn makes_room<W: Wire, V: Wire>(wire: &mut W, other: &mut V, port: u16, buffer: &mut [u8]) -> bool
    requires { 65507 ≤ length buffer.old }
{
    let (first, second, third) = (at(port), at(port.wrapping_add(1)), at(port.wrapping_add(2)));
    let opened = is_silent(wire, &first, buffer)
        && is_silent(wire, &second, buffer)
        && is_silent(wire, &first, buffer);
    opened
        && is_silent(wire, &third, buffer)
        && is_faulty(other, &first, buffer)
        && is_silent(other, &second, buffer)
        && is_faulty(other, &third, buffer)
}

#[test]
fn room_for_two_sockets(rt: HostRuntime) -> Result<(), Fail> {
    let mut buffer = vec![in rt.alloc(); 0u8; LONGEST]?;
    let mut wire = Udp::new(rt.alloc(), rt, 2)?;
    let mut other = Udp::new(rt.alloc(), rt, 2)?;
    let port = first_port(process::id(rt.process())).wrapping_add(5);
    assert!(rt; makes_room(&mut wire, &mut other, port, &mut buffer));
    Ok(())
}

/// Whether a socket that is read in each turn stays open, and one that a whole turn did not use is closed.
fn closes_at_a_turn<W: Wire, V: Wire>(
    wire: &mut W,
    other: &mut V,
    port: u16,
    buffer: &mut [u8],
) -> bool
    requires { 65507 ≤ length buffer.old }
{
    let (kept, left) = (at(port), at(port.wrapping_add(1)));
    let first = is_silent(wire, &kept, buffer) && is_silent(wire, &left, buffer);
    wire.turn_ended();
    let second = other.send(&left, &kept, b"a").is_err() && comes_in_turns(wire, &kept, buffer);
    first
        && second
        && wire.failures() == 0
        && is_faulty(other, &kept, buffer)
        && is_silent(other, &left, buffer)
        && other.failures() == 2
}

/// Whether what one sends to itself in a turn is there to read in the turn after the next.
fn comes_in_turns<W: Wire>(wire: &mut W, kept: &Address, buffer: &mut [u8]) -> bool
    requires { 65507 ≤ length buffer.old }
{
    let sent = wire.send(kept, kept, b"b").is_ok();
    wire.turn_ended();
    let again = wire.send(kept, kept, b"c").is_ok();
    wire.turn_ended();
    sent && again && comes(wire, kept, kept, b"b", buffer) && comes(wire, kept, kept, b"c", buffer)
}

#[test]
fn closed_after_a_turn_without_use(rt: HostRuntime) -> Result<(), Fail> {
    let mut buffer = vec![in rt.alloc(); 0u8; LONGEST]?;
    let mut wire = Udp::new(rt.alloc(), rt, 4)?;
    let mut other = Udp::new(rt.alloc(), rt, 4)?;
    let port = first_port(process::id(rt.process())).wrapping_add(2);
    assert!(rt; closes_at_a_turn(&mut wire, &mut other, port, &mut buffer));
    Ok(())
}

/// Whether what one of two that share sockets uses stays open while the other ends turns, and is closed once both have made
/// turns without it.
fn closes_for_both<W: Wire, V: Wire>(
    one: &mut W,
    two: &mut W,
    other: &mut V,
    port: u16,
    buffer: &mut [u8],
) -> bool
    requires { 65507 ≤ length buffer.old }
{
    let here = at(port);
    let opened = is_silent(one, &here, buffer);
    for _ in 0..5 {
        two.turn_ended();
    }
    let stays = is_faulty(other, &here, buffer);
    for _ in 0..4 {
        one.turn_ended();
        two.turn_ended();
    }
    opened && stays && is_silent(other, &here, buffer)
}

#[test]
fn closed_once_both_have_turned(rt: HostRuntime) -> Result<(), Fail> {
    let mut buffer = vec![in rt.alloc(); 0u8; LONGEST]?;
    let sockets = Udp::new(rt.alloc(), rt, 4)?;
    let mut one = Shared::new(rt.alloc(), rt, sockets)?;
    let mut two = one.another()?;
    let mut other = Udp::new(rt.alloc(), rt, 4)?;
    let port = first_port(process::id(rt.process())).wrapping_add(4);
    assert!(rt; closes_for_both(&mut one, &mut two, &mut other, port, &mut buffer));
    Ok(())
}
