ghost use Rattle.std.specs.Prelude.{◌≤◌, length};

use crate::reading::{at, comes, is_silent};
use media_wire::{Fate, LONGEST, Network, Wire, WireFault};
use std::test::Fail;

/// Whether letters come to each address in their order, and to no other.
fn in_order<W: Wire>(wire: &mut W, buffer: &mut [u8]) -> bool
    requires { 65507 ≤ length buffer.old }
{
    let (here, there, elsewhere) = (at(1), at(2), at(3));
    let sent = wire.send(&here, &there, b"a").is_ok()
        && wire.send(&there, &here, b"b").is_ok()
        && wire.send(&here, &there, b"cd").is_ok();
    sent && is_silent(wire, &elsewhere, buffer)
        && comes(wire, &there, &here, b"a", buffer)
        && comes(wire, &there, &here, b"cd", buffer)
        && is_silent(wire, &there, buffer)
        && comes(wire, &here, &there, b"b", buffer)
        && is_silent(wire, &here, buffer)
        && wire.failures() == 0
}

#[test]
fn letters_in_order(rt: HostRuntime) -> Result<(), Fail> {
    let mut buffer = vec![in rt.alloc(); 0u8; LONGEST]?;
    let mut network = Network::new(rt.alloc());
    assert!(rt; in_order(&mut network, &mut buffer));
    assert_eq!(rt; network.len(), 0);
    Ok(())
}

/// Whether the first letter arrives, the second is lost, the third comes twice, and the fourth before it.
fn by_fate(network: &mut Network, buffer: &mut [u8]) -> bool
    requires { 65507 ≤ length buffer.old }
{
    let (here, there) = (at(1), at(2));
    let mut sent = true;
    for bytes in [b"1", b"2", b"3", b"4", b"5"] {
        sent = sent && network.send(&here, &there, bytes).is_ok();
    }
    let on_the_way = network.len() == 5;
    let mut came = true;
    for bytes in [b"1", b"3", b"4", b"3", b"5"] {
        came = came && comes(network, &there, &here, bytes, buffer);
    }
    sent && on_the_way && came && is_silent(network, &there, buffer)
}

#[test]
fn letters_by_fate(rt: HostRuntime) -> Result<(), Fail> {
    let mut buffer = vec![in rt.alloc(); 0u8; LONGEST]?;
    let fates = vec![in rt.alloc();
        Fate::Arrives,
        Fate::IsLost,
        Fate::IsRepeated,
        Fate::Overtakes,
    ]?;
    let mut network = Network::with_fates(rt.alloc(), fates);
    assert!(rt; by_fate(&mut network, &mut buffer));
    Ok(())
}

#[test]
fn a_letter_too_long(rt: HostRuntime) -> Result<(), Fail> {
    let long = vec![in rt.alloc(); 7u8; LONGEST + 1]?;
    let mut network = Network::new(rt.alloc());
    assert_eq!(rt; network.send(&at(1), &at(2), &long), Err(WireFault));
    assert_eq!(rt; network.send(&at(1), &at(2), &long[..LONGEST]), Ok(()));
    assert_eq!(rt; network.failures(), 1);
    assert_eq!(rt; network.len(), 1);
    Ok(())
}

/// Whether a datagram is sent, and on its way so often; where memory was refused, whether that was a failure that changed
/// nothing else, and the next try is sent.
fn is_sent_at_last(network: &mut Network, often: usize) -> bool {
    for _ in 0..2 {
        let (before, failed) = (network.len(), network.failures());
        match network.send(&at(1), &at(2), b"abc") {
            Ok(()) => {
                return network.len() == before.saturating_add(often)
                    && network.failures() == failed;
            }
            Err(WireFault) => {
                if network.len() != before || network.failures() != failed.saturating_add(1) {
                    return false;
                }
            }
        }
    }
    false
}

// With memory each is sent at once; in a run in which one growth is refused, at the second try.
#[test]
fn sent_or_a_failure(rt: HostRuntime) -> Result<(), Fail> {
    let fates = vec![in rt.alloc(); Fate::IsRepeated, Fate::Overtakes, Fate::IsRepeated]?;
    let mut network = Network::with_fates(rt.alloc(), fates);
    for often in [2, 1, 2, 1, 1, 1, 1] {
        assert!(rt; is_sent_at_last(&mut network, often));
    }
    Ok(())
}
