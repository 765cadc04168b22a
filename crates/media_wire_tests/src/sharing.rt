ghost use Rattle.std.specs.Prelude.{◌≤◌, length};

use crate::reading::at;
use crate::sockets::first_port;
use channel_uri::Address;
use media_wire::{LONGEST, Network, Shared, Udp, Wire};
use std::alloc::Global;
use std::process;
use std::sync::Wait;
use std::test::Fail;
use std::thread::{self, Threads};

/// How many datagrams are sent.
const COUNT: u8 = 100;

fn send_all<W: Wire>(wire: &mut W, ways: &(Address, Address)) -> bool {
    let mut sent = true;
    for number in 0..COUNT {
        sent = sent && wire.send(&ways.0, &ways.1, &[number]).is_ok();
    }
    sent
}

/// Whether all come, in order.
fn read_all<W: Wire, R: Wait>(
    rt: &R,
    wire: &mut W,
    ways: &(Address, Address),
    buffer: &mut [u8],
) -> bool
    requires { 65507 ≤ length buffer.old }
{
    let mut next = 0u8;
    for _ in rt.forever() {
        if next == COUNT {
            return true;
        }
        match wire.recv(&ways.1, buffer) {
            Ok(Some((count, from))) => {
                if !from.is(&ways.0) || &buffer[..count] != [next].as_slice() {
                    return false;
                }
                next = next.wrapping_add(1);
            }
            Ok(None) => thread::yield_now(),
            Err(_) => return false,
        }
    }
    false
}

/// Whether the address is read from now on, and nothing came before.
fn opens<W: Wire>(wire: &mut W, address: &Address, buffer: &mut [u8]) -> bool
    requires { 65507 ≤ length buffer.old }
{
    match wire.recv(address, buffer) {
        Ok(came) => came.is_none(),
        Err(_) => false,
    }
}

fn are_shared<W: Wire + Drop + Send + 'static, R: Threads + Wait + Copy + Send + 'static>(
    rt: &R,
    alloc: Global,
    wire: W,
    ways: (Address, Address),
    buffer: &mut [u8],
) -> bool
    requires { 65507 ≤ length buffer.old }
{
    let Ok(mut one) = Shared::new(alloc, *rt, wire) else {
        return false;
    };
    let Ok(mut other) = one.another() else {
        return false;
    };
    // What is sent to an address that nobody reads yet is lost.
    if !opens(&mut one, &ways.1, buffer) {
        return false;
    }
    match thread::spawn(rt, move || send_all(&mut other, &ways)) {
        Ok(sender) => {
            let came = read_all(rt, &mut one, &ways, buffer);
            sender.join(rt) && came && one.failures() == 0
        }
        Err(_) => false,
    }
}

#[test]
fn one_network_for_two_threads(rt: HostRuntime) -> Result<(), Fail> {
    let mut buffer = vec![in rt.alloc(); 0u8; LONGEST]?;
    let network = Network::new(rt.alloc());
    assert!(rt; are_shared(&rt, rt.alloc(), network, (at(1), at(2)), &mut buffer));
    Ok(())
}

#[test]
fn sockets_for_two_threads(rt: HostRuntime) -> Result<(), Fail> {
    let mut buffer = vec![in rt.alloc(); 0u8; LONGEST]?;
    let port = first_port(process::id(rt.process()));
    let sockets = Udp::new(rt.alloc(), rt, 2)?;
    let ways = (at(port), at(port.wrapping_add(1)));
    assert!(rt; are_shared(&rt, rt.alloc(), sockets, ways, &mut buffer));
    Ok(())
}
