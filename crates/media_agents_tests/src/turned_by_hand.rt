// The three agents of a driver are turned by hand, at moments that the test names, over a memory network.
ghost use Rattle.driver_core.specs.Soundness.{IsSound};
ghost use Rattle.published_registry.specs.Histories.{registry_of};
ghost use Rattle.std.specs.Prelude.{◌≡◌};

use crate::driver::Driver;
use crate::onlooker::Sight;
use crate::parts::Parts;
use crate::watched::{HEARTBEATS, Kinds, NONE, SETUPS, STATUS_MESSAGES, Watched};
use driver_core::Settings;
use media_agents::DriverNaming;
use media_wire::Network;
use std::alloc::Global;
use std::marker::Brand;
use std::sync::Wait;

// What is seen of a turn of the conductor: how many events it says were refused memory, and what a look sees after it.
#[derive(Clone, Copy, PartialEq, Eq)]
struct Conducted {
    misses: u32,
    newest: Option<Sight>,
}

// What is seen of a turn of the sender or the receiver: what it sends, and how many datagrams are on their way after it.
#[derive(Clone, Copy, PartialEq, Eq)]
struct Told {
    sent: Kinds,
    left: usize,
}

// What is seen of all turns.
#[derive(Clone, Copy, PartialEq, Eq)]
struct Seen {
    conducted: [Conducted; 2],
    told: [Told; 6],
}

// What the row says of them.
const WANTED: Seen = Seen {
    conducted: [
        Conducted {
            misses: 0,
            newest: Some(Sight {
                number: 8,
                images: 0,
                open: true,
            }),
        },
        Conducted {
            misses: 0,
            newest: Some(Sight {
                number: 12,
                images: 3,
                open: true,
            }),
        },
    ],
    told: [
        // The sender at 0: three SETUPs, which the receiver reads, and it sends nothing.
        Told {
            sent: SETUPS,
            left: 3,
        },
        Told {
            sent: NONE,
            left: 0,
        },
        // The receiver, once there are images: three status messages, which the sender reads, and it sends nothing.
        Told {
            sent: STATUS_MESSAGES,
            left: 3,
        },
        Told {
            sent: NONE,
            left: 0,
        },
        // The sender at 100,000,001: three heartbeats. The receiver at 200,000,001 reads them, and sends three status messages.
        Told {
            sent: HEARTBEATS,
            left: 3,
        },
        Told {
            sent: STATUS_MESSAGES,
            left: 3,
        },
    ],
};

// A driver, and the network that its sender and its receiver send and read by. It can't be let go, since the driver can't.
struct Row<N: DriverNaming> {
    driver: Driver<N>,
    wire: Watched<Network>,
}

impl<N: DriverNaming> Row<N> {
    // What is seen of the turn that was just had.
    fn told(&mut self) -> Told {
        Told {
            sent: self.wire.sent(),
            left: self.wire.wire().len(),
        }
    }

    // The conductor has a turn at 0.
    fn conducts<R: Wait>(&mut self, rt: &R) -> Conducted {
        Conducted {
            misses: self.driver.conducts(rt, 0),
            newest: self.driver.hand.looks(rt),
        }
    }

    // The sender has a turn.
    fn sends<R: Wait>(&mut self, rt: &R, now: u64) -> Told {
        self.driver.hand.sends(rt, &mut self.wire, now);
        self.told()
    }

    // The receiver has a turn.
    fn receives<R: Wait>(&mut self, rt: &R, now: u64) -> Told {
        self.driver.hand.receives(rt, &mut self.wire, now);
        self.told()
    }

    // All turns, one after another.
    fn turned<R: Wait>(&mut self, rt: &R) -> Seen {
        let first = self.conducts(rt);
        let told = [self.sends(rt, 0), self.receives(rt, 0)];
        let second = self.conducts(rt);
        Seen {
            conducted: [first, second],
            told: [
                told[0],
                told[1],
                self.receives(rt, 0),
                self.sends(rt, 0),
                self.sends(rt, 100_000_001),
                self.receives(rt, 200_000_001),
            ],
        }
    }

    // The client's events are pushed, and all turns are had. `None` where there is no memory for an event.
    fn served<R: Wait>(&mut self, rt: &R, alloc: Global) -> Option<Seen> {
        self.driver.hand.push_all(rt, alloc).ok()?;
        Some(self.turned(rt))
    }

    // The driver ends.
    fn end<R: Wait>(self, rt: &R) {
        let Row { driver, wire: _ } = self;
        driver.end(rt);
    }
}

// What is seen of a driver of these parts; `None` where there is no memory.
fn seen_of<N: DriverNaming, R: Wait>(rt: &R, alloc: Global, parts: Parts) -> Option<Seen>
    requires book { parts.publisher.book ≡ N.book }
    requires sound { IsSound (registry_of parts.publisher) }
    requires home { parts.pieces.arena.home ≡ N.home }
    requires names { (parts.pieces.messages.name ≡ N.ledger) × (parts.pieces.messages.parts ≡ N.parts) }
    requires four { parts.pieces.messages.parts ≡ 4 }
{
    let driver: Driver<N> = Driver::start(rt, alloc, parts)?;
    let wire = Watched::new(Network::new(alloc));
    let mut row = Row { driver, wire };
    let seen = row.served(rt, alloc);
    row.end(rt);
    seen
}

// The same of a driver of its own.
fn shown<R: Wait>(rt: &R, alloc: Global) -> Option<Seen> {
    let parts = Parts::make(rt, alloc, Settings::default())?;
    seen_of::<Brand, R>(rt, alloc, parts)
}

#[test]
fn turned_by_hand(rt: HostRuntime) {
    assert!(rt; shown(&rt, rt.alloc()) == Some(WANTED));
}
