// A receiver elicits a publication that learns its destinations, until an image of it is open.
ghost use Rattle.driver_core.specs.Soundness.{IsSound};
ghost use Rattle.published_registry.specs.Histories.{registry_of};
ghost use Rattle.std.specs.Prelude.{◌≡◌};

use crate::commands::{attaches, subscribes};
use crate::driver::Driver;
use crate::endpoints::{Came, HOST, asking, next, set_up};
use crate::parts::Parts;
use driver_core::{Address, Settings};
use frame_codec::{Flags, Setup};
use media_agents::{DriverNaming, ElicitFault, Elicitation, make_elicitations};
use media_wire::Network;
use std::alloc::Global;
use std::marker::Brand;
use std::sync::Wait;

// Where the driver's subscription takes datagrams, and where the publisher learns its destinations.
const ENDPOINT: Address = Address {
    octets: HOST,
    port: 40_123,
};

const CONTROL: Address = Address {
    octets: HOST,
    port: 40_300,
};

// From where the publisher sends.
const PUBLISHER: Address = Address {
    octets: HOST,
    port: 40_301,
};

// What is elicited.
const ELICITATION: Elicitation = Elicitation {
    endpoint: ENDPOINT,
    control: CONTROL,
    session_id: 7,
    stream_id: 10,
};

// The publisher's SETUP.
const SETUP: Setup = Setup {
    flags: Flags::NONE,
    term_offset: 0,
    session_id: 7,
    stream_id: 10,
    initial_term_id: 0,
    active_term_id: 0,
    term_length: 65_536,
    mtu: 1_408,
    ttl: 0,
};

// What came to the publisher's control address by a turn of the receiver.
#[derive(Clone, Copy, PartialEq, Eq)]
enum Gets {
    Nothing,
    // One status message of the session and stream, which asks for a SETUP, from the endpoint.
    Elicitation,
    Another,
}

// A driver, and the network. It can't be let go, since the driver can't.
struct Row<N: DriverNaming> {
    driver: Driver<N>,
    wire: Network,
    alloc: Global,
}

impl<N: DriverNaming> Row<N> {
    // All that came to the publisher's control address.
    fn gets(&mut self) -> Gets {
        let first = next(&mut self.wire, self.alloc, &CONTROL);
        let second = next(&mut self.wire, self.alloc, &CONTROL);
        match (first, second) {
            (None, None) => Gets::Nothing,
            (Some((came, from)), None)
                if from.is(&ENDPOINT) && came == Came::StatusMessage(asking(7, 10)) => {
                Gets::Elicitation
            }
            _ => Gets::Another,
        }
    }

    // The same by a turn of the receiver at that moment.
    fn receives<R: Wait>(&mut self, rt: &R, now: u64) -> Gets {
        self.driver.hand.receives(rt, &mut self.wire, now);
        self.gets()
    }

    // The client subscribes; `None` where there is no memory for its event.
    fn subscribes<R: Wait>(&mut self, rt: &R) -> Option<()> {
        let event = subscribes(self.alloc, 10).ok()?;
        self.driver.hand.push(rt, attaches());
        self.driver.hand.push(rt, event);
        self.driver.conducts(rt, 0);
        Some(())
    }

    // The publisher's SETUP comes, and an image opens.
    fn opens<R: Wait>(&mut self, rt: &R, now: u64) {
        set_up(&mut self.wire, &PUBLISHER, &ENDPOINT, &SETUP);
        self.driver.hand.receives(rt, &mut self.wire, now);
        self.driver.conducts(rt, now);
    }

    // What came to the control address, turn by turn.
    fn served<R: Wait>(&mut self, rt: &R) -> Option<[Gets; 8]> {
        self.subscribes(rt)?;
        let none = self.receives(rt, 0);
        self.driver.hand.elicit(ELICITATION).ok()?;
        let at_once = self.receives(rt, 0);
        let at_that_moment = self.receives(rt, 0);
        let within = self.receives(rt, 999_999_999);
        let later = self.receives(rt, 1_000_000_000);
        let within_again = self.receives(rt, 1_500_000_000);
        self.opens(rt, 1_500_000_000);
        let open = self.receives(rt, 2_000_000_000);
        let still_open = self.receives(rt, 4_000_000_000);
        Some([
            none,
            at_once,
            at_that_moment,
            within,
            later,
            within_again,
            open,
            still_open,
        ])
    }

    // The driver ends.
    fn end<R: Wait>(self, rt: &R) {
        let Row {
            driver,
            wire: _,
            alloc: _,
        } = self;
        driver.end(rt);
    }
}

// What is seen of a driver of these parts; `None` where there is no memory.
fn seen_of<N: DriverNaming, R: Wait>(rt: &R, alloc: Global, parts: Parts) -> Option<[Gets; 8]>
    requires book { parts.publisher.book ≡ N.book }
    requires sound { IsSound (registry_of parts.publisher) }
    requires home { parts.pieces.arena.home ≡ N.home }
    requires names { (parts.pieces.messages.name ≡ N.ledger) × (parts.pieces.messages.parts ≡ N.parts) }
    requires four { parts.pieces.messages.parts ≡ 4 }
{
    let driver: Driver<N> = Driver::start(rt, alloc, parts)?;
    let wire = Network::new(alloc);
    let mut row = Row {
        driver,
        wire,
        alloc,
    };
    let seen = row.served(rt);
    row.end(rt);
    seen
}

// The same of a driver of its own.
fn shown<R: Wait>(rt: &R, alloc: Global) -> Option<[Gets; 8]> {
    let parts = Parts::make(rt, alloc, Settings::default())?;
    seen_of::<Brand, R>(rt, alloc, parts)
}

// One goes out at once, none within the second, and one after it; and none once the image is open.
#[test]
fn elicited_until_an_image_is_open(rt: HostRuntime) {
    assert!(rt;
        shown(&rt, rt.alloc())
            == Some([
                Gets::Nothing,
                Gets::Elicitation,
                Gets::Nothing,
                Gets::Nothing,
                Gets::Elicitation,
                Gets::Nothing,
                Gets::Nothing,
                Gets::Nothing,
            ])
    );
}

// What the owner of a driver is answered to 32 elicitations, to the last of them once more, and to another; `None` where there is
// no memory.
fn asked(alloc: Global) -> Option<[Result<(), ElicitFault>; 3]> {
    let (mut owner, _receiver) = make_elicitations(alloc).ok()?;
    let mut first = Ok(());
    for stream_id in 0..32 {
        let elicitation = Elicitation {
            stream_id,
            ..ELICITATION
        };
        first = first.and(owner.add(elicitation));
    }
    let last = Elicitation {
        stream_id: 31,
        ..ELICITATION
    };
    let other = Elicitation {
        session_id: 8,
        ..ELICITATION
    };
    Some([first, owner.add(last), owner.add(other)])
}

#[test]
fn elicits_32_at_most(rt: HostRuntime) {
    assert!(rt; asked(rt.alloc()) == Some([Ok(()), Ok(()), Err(ElicitFault::Full)]));
}
