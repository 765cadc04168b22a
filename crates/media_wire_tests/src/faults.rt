ghost use Rattle.std.specs.Prelude.{◌≤◌, length};

use crate::reading::at;
use media_wire::{Faulty, LONGEST, Network, Wire};
use std::alloc::Global;
use std::test::Fail;

/// How many of six calls fail, by turns a datagram that is sent and a read: as many as the wire counts, or 7. A turn that ends is
/// none of these calls.
fn failing<W: Wire>(wire: &mut W, buffer: &mut [u8]) -> u64
    requires { 65507 ≤ length buffer.old }
{
    let (here, there) = (at(1), at(2));
    let mut failed = 0u64;
    for _ in 0..3 {
        if wire.send(&here, &there, b"a").is_err() {
            failed = failed.saturating_add(1);
        }
        if wire.recv(&there, buffer).is_err() {
            failed = failed.saturating_add(1);
        }
        wire.turn_ended();
    }
    if wire.failures() == failed { failed } else { 7 }
}

/// Whether one call fails after so many, or all that are left.
fn fails_there(alloc: Global, ahead: u64, buffer: &mut [u8]) -> bool
    requires { 65507 ≤ length buffer.old }
{
    let mut once = Faulty::new(Network::new(alloc), ahead, false);
    let mut from_there = Faulty::new(Network::new(alloc), ahead, true);
    let one = if ahead < 6 { 1 } else { 0 };
    failing(&mut once, buffer) == one
        && failing(&mut from_there, buffer) == 6u64.saturating_sub(ahead)
}

/// Whether they do so from each of the first calls on.
fn fails_everywhere(alloc: Global, buffer: &mut [u8]) -> bool
    requires { 65507 ≤ length buffer.old }
{
    let mut well = true;
    for ahead in 0..8 {
        well = well && fails_there(alloc, ahead, buffer);
    }
    well
}

#[test]
fn one_call_or_all_fail(rt: HostRuntime) -> Result<(), Fail> {
    let mut buffer = vec![in rt.alloc(); 0u8; LONGEST]?;
    assert!(rt; fails_everywhere(rt.alloc(), &mut buffer));
    let mut last = Faulty::new(Network::new(rt.alloc()), 0, false);
    assert!(rt; last.send(&at(1), &at(2), b"a").is_err());
    Ok(())
}
