//! Tests of `destinations`.

use channel_uri::{Address, Channel};
use destinations::{Destination, DestinationFault, Destinations};
use std::alloc::Global;

/// An address of this host.
fn at(port: u16) -> Address {
    Address {
        octets: [127, 0, 0, 1],
        port,
    }
}

type Added = Result<u64, DestinationFault>;

/// Whether the destination at the port is answered so. It is there then, unless it is refused.
fn adds(
    destinations: &mut Destinations,
    source: u64,
    port: u16,
    principal: u32,
    answer: Added,
) -> bool {
    let address = at(port);
    // What would be answered is what is answered then.
    destinations.adding(source, &address) == answer
        && destinations.add(source, &address, principal, &Channel::at_endpoint(&address)) == answer
}

fn removes(
    destinations: &mut Destinations,
    port: u16,
    answer: Result<(), DestinationFault>,
) -> bool {
    destinations.remove(1, &at(port)) == answer
}

/// Log 1 goes to ports 40201 and 40202, named for 7 and 9, and log 2 to port 40201, named for 7.
fn names_three(destinations: &mut Destinations) -> bool {
    adds(destinations, 1, 40201, 7, Ok(1))
        & adds(destinations, 2, 40201, 7, Ok(2))
        & adds(destinations, 1, 40202, 9, Ok(3))
}

/// Whether it is this number, at that port, named for that principal by the channel of its address.
fn is_row(row: &Destination, wanted: (u64, u16, u32)) -> bool {
    let (number, port, principal) = wanted;
    row.number == number
        && row.principal == principal
        && row.address == at(port)
        && row.channel.is_at(&at(port))
}

/// Whether the log has these, each with its number, port and principal, in this order.
fn goes_to(destinations: &Destinations, source: u64, wanted: &[(u64, u16, u32)]) -> bool {
    let mut left = wanted;
    for row in destinations.rows() {
        if row.source == source {
            match left {
                [first, rest @ ..] if is_row(row, *first) => left = rest,
                _ => return false,
            }
        }
    }
    left.is_empty()
}

/// Whether a list that became equal to these has the destination of log 2, and all rows.
fn is_copied(alloc: Global, destinations: &Destinations) -> bool {
    match Destinations::new(alloc) {
        Ok(mut other) => {
            other.set_from(destinations);
            goes_to(&other, 2, &[(2, 40201, 7)])
                & goes_to(&other, 1, &[(1, 40201, 7), (3, 40202, 9)])
        }
        Err(_) => false,
    }
}

const CONFLICT: DestinationFault = DestinationFault::Conflict;

/// Whether an address is refused that is there twice, and one that is taken back twice; the number it had is not given
/// again.
fn conflicts(destinations: &mut Destinations, next: u64) -> bool {
    let twice = names_three(destinations) & adds(destinations, 1, 40201, 9, Err(CONFLICT));
    let gone = removes(destinations, 40202, Ok(())) & removes(destinations, 40202, Err(CONFLICT));
    let left = goes_to(destinations, 1, &[(1, 40201, 7)]) & destinations.has(2, &at(40201));
    twice & gone & left & adds(destinations, 1, 40202, 9, Ok(next))
}

/// Whether the destinations of log 1 alone go as it closes, and then all.
fn close(destinations: &mut Destinations) -> bool {
    let named = names_three(destinations);
    destinations.remove_of_sources(&[3, 1]);
    let left = goes_to(destinations, 1, &[]) & goes_to(destinations, 2, &[(2, 40201, 7)]);
    destinations.clear();
    named & left & destinations.rows().is_empty() & adds(destinations, 2, 1, 7, Ok(4))
}

/// Whether 32 destinations of log 1 are named, at the ports from 1 on.
fn names_many(destinations: &mut Destinations) -> bool {
    let mut named = true;
    for port in 1..33u16 {
        named &= adds(destinations, 1, port, 7, Ok(u64::from(port)));
    }
    named
}

/// Whether a log with 32 destinations gets no other, another log one, and the first one again once one went.
fn fills(destinations: &mut Destinations, next: u64) -> bool {
    let full = Err(DestinationFault::Full);
    let refused = names_many(destinations) & adds(destinations, 1, 33, 7, full);
    // An address that is there is a conflict also in a full log.
    let twice = adds(destinations, 1, 32, 7, Err(CONFLICT));
    let other = adds(destinations, 2, 33, 7, Ok(33)) & removes(destinations, 5, Ok(()));
    refused & twice & other & adds(destinations, 1, 33, 7, Ok(next))
}

/// What destinations show.
#[derive(Clone, Copy)]
enum Case {
    /// They stand in the order in which they were named: of log 1 these.
    Order(&'static [(u64, u16, u32)]),
    /// An address is named once for a log, and the next number is this one.
    Conflicts(u64),
    LogsClose,
    /// A log has at most 32, and the next number is this one.
    Limit(u64),
}

/// Whether destinations, of which there are none yet, go as the case says.
fn goes(alloc: Global, destinations: &mut Destinations, case: Case) -> bool {
    match case {
        Case::Order(wanted) => {
            names_three(destinations)
                & goes_to(destinations, 1, wanted)
                & is_copied(alloc, destinations)
        }
        Case::Conflicts(next) => conflicts(destinations, next),
        Case::LogsClose => close(destinations),
        Case::Limit(next) => fills(destinations, next),
    }
}

/// What destinations show, and whether they do.
static CASES: [(Case, bool); 8] = [
    (Case::Order(&[(1, 40201, 7), (3, 40202, 9)]), true),
    (Case::Order(&[(3, 40202, 9), (1, 40201, 7)]), false),
    (Case::Order(&[(1, 40201, 7), (3, 40202, 7)]), false),
    (Case::Conflicts(4), true),
    (Case::Conflicts(3), false),
    (Case::LogsClose, true),
    (Case::Limit(34), true),
    (Case::Limit(5), false),
];

/// Whether destinations go as the case says; false without memory.
fn is_shown(alloc: Global, case: Case) -> bool {
    match Destinations::new(alloc) {
        Ok(mut destinations) => goes(alloc, &mut destinations, case),
        Err(_) => false,
    }
}

fn are_shown(alloc: Global, cases: &[(Case, bool)]) -> bool {
    for &(case, shown) in cases {
        if is_shown(alloc, case) != shown {
            return false;
        }
    }
    true
}

#[test]
fn destinations_go_as_they_should(rt: HostRuntime) {
    assert!(rt; are_shown(rt.alloc(), &CASES));
}
