// A client's share of the queue: 256 of its commands lie there at most, and its other 768 places are left to others.
ghost use Rattle.driver_core.specs.Soundness.{IsSound};
ghost use Rattle.published_registry.specs.Histories.{registry_of};
ghost use Rattle.std.specs.Prelude.{◌≡◌};

use crate::commands::{attaches, keeps_alive};
use crate::driver::Driver;
use crate::parts::Parts;
use driver_core::{Event, Settings};
use media_agents::DriverNaming;
use std::alloc::Global;
use std::marker::Brand;
use std::sync::Wait;

// More than the queue holds.
const MANY: u32 = 2_000;

// How many pushes the queue takes, one after another, until one is refused.
#[derive(Clone, Copy, Debug, PartialEq, Eq)]
struct Filled {
    // Of the client.
    commands: u32,
    // Then of others.
    ticks: u32,
    // And of the client again.
    more: u32,
}

// A driver whose first client has attached. It can't be let go, since the driver can't.
struct Row<N: DriverNaming> {
    driver: Driver<N>,
    alloc: Global,
}

impl<N: DriverNaming> Row<N> {
    // How many commands of the client the queue takes; `None` where there is no memory for one.
    fn commands<R: Wait>(&mut self, rt: &R) -> Option<u32> {
        for count in 0..MANY {
            let event = keeps_alive(self.alloc).ok()?;
            if self.driver.client.push(rt, event).is_err() {
                return Some(count);
            }
        }
        Some(MANY)
    }

    // How many events of others it takes.
    fn ticks<R: Wait>(&mut self, rt: &R) -> u32 {
        for count in 0..MANY {
            if !self.driver.hand.tries_to_push(rt, Event::Tick { now: 0 }) {
                return count;
            }
        }
        MANY
    }

    // The client fills its share, and others the queue.
    fn filled<R: Wait>(&mut self, rt: &R) -> Option<Filled> {
        Some(Filled {
            commands: self.commands(rt)?,
            ticks: self.ticks(rt),
            more: self.commands(rt)?,
        })
    }

    // The conductor takes what the queue holds. How it is filled before, and whether no event is refused memory.
    fn refilled<R: Wait>(&mut self, rt: &R) -> Option<(Filled, bool)> {
        let filled = self.filled(rt)?;
        let misses = self.driver.conducts(rt, 0);
        Some((filled, misses == 0))
    }

    // The queue is filled by the client first, then by others first, and then by the client first again.
    fn served<R: Wait>(&mut self, rt: &R) -> Option<[(Filled, bool); 3]> {
        self.driver.hand.push(rt, attaches());
        self.driver.conducts(rt, 0);
        let first = self.refilled(rt)?;
        let ticks = self.ticks(rt);
        let commands = self.commands(rt)?;
        let more = self.commands(rt)?;
        let misses = self.driver.conducts(rt, 0);
        let refused = Filled {
            commands,
            ticks,
            more,
        };
        let last = self.refilled(rt)?;
        Some([first, (refused, misses == 0), last])
    }

    // The driver ends.
    fn end<R: Wait>(self, rt: &R) {
        let Row { driver, alloc: _ } = self;
        driver.end(rt);
    }
}

// What is seen of a driver of these parts; `None` where there is no memory.
fn seen_of<N: DriverNaming, R: Wait>(
    rt: &R,
    alloc: Global,
    parts: Parts,
) -> Option<[(Filled, bool); 3]>
    requires book { parts.publisher.book ≡ N.book }
    requires sound { IsSound (registry_of parts.publisher) }
    requires home { parts.pieces.arena.home ≡ N.home }
    requires names { (parts.pieces.messages.name ≡ N.ledger) × (parts.pieces.messages.parts ≡ N.parts) }
    requires four { parts.pieces.messages.parts ≡ 4 }
{
    let driver: Driver<N> = Driver::start(rt, alloc, parts)?;
    let mut row = Row { driver, alloc };
    let seen = row.served(rt);
    row.end(rt);
    seen
}

// The same of a driver of its own.
fn shown<R: Wait>(rt: &R, alloc: Global) -> Option<[(Filled, bool); 3]> {
    let parts = Parts::make(rt, alloc, Settings::default())?;
    seen_of::<Brand, R>(rt, alloc, parts)
}

// With a queue that nobody takes from, the client pushes 256 commands, then others 768 events, and the client none. Where others
// fill it first, the client pushes none; and once the conductor took all, its share is whole again.
#[test]
fn a_client_has_its_share_of_the_queue(rt: HostRuntime) {
    let whole = Filled {
        commands: 256,
        ticks: 768,
        more: 0,
    };
    let none = Filled {
        commands: 0,
        ticks: 1024,
        more: 0,
    };
    assert!(rt; shown(&rt, rt.alloc()) == Some([(whole, true), (none, true), (whole, true)]));
}
