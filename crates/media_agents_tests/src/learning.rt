// A publication learns its destinations: two subscribers join it at its control address, one falls silent, one is denied to join by
// a policy, and for half a second nothing is sent to it.
ghost use Rattle.driver_core.specs.Soundness.{IsSound};
ghost use Rattle.published_registry.specs.Histories.{registry_of};
ghost use Rattle.std.specs.Prelude.{◌≡◌};

use crate::commands::{attaches, publishes_at};
use crate::driver::Driver;
use crate::endpoints::{Came, HOST, ask, asking, next};
use crate::parts::{MEMBER, Parts};
use driver_core::{Address, Event, Settings};
use media_agents::{DriverNaming, Miss, Tally};
use media_wire::Network;
use policy_core::{Policy, Verdict};
use policy_text::Names;
use std::alloc::Global;
use std::marker::Brand;
use std::sync::Wait;

// The channel of the publication, of session 1, and its control address.
const CHANNEL: &str = "aeron:udp?control-mode=dynamic|control=127.0.0.1:40300";

const CONTROL: Address = Address {
    octets: HOST,
    port: 40_300,
};

// From where the driver sends.
const SENDER: Address = Address {
    octets: HOST,
    port: 40_000,
};

// The subscribers: the first is at the address of principal 1, the second at nobody's.
const FIRST: Address = MEMBER;

const SECOND: Address = Address {
    octets: HOST,
    port: 50_002,
};

// Under which nobody may join.
const POLICY: &str = "\
version = 1
default = \"allow\"
[[rule]]
name = \"nobody joins\"
principal = \"nobody\"
act = \"join\"
channel = \"*\"
allow = false
";

// Under which nothing is sent to nobody's addresses from 9 s on, for half a second.
const PAUSE: &str = "\
version = 2
default = \"allow\"
[[rule]]
name = \"nobody is sent to\"
principal = \"nobody\"
act = \"send\"
channel = \"*\"
from = 9000000000
until = 9500000000
allow = false
";

// The policy of the text; `None` where it is none.
fn policy(alloc: Global, text: &str) -> Option<Policy> {
    policy_text::read(alloc, text, &Names::new(alloc)).ok()
}

// That was so often denied to the second, by the first rule of that policy.
fn of_second(miss: Miss, epoch: u64, count: u64) -> Tally {
    Tally {
        miss,
        verdict: Some(Verdict {
            allow: false,
            rule: Some(1),
            epoch,
        }),
        address: SECOND,
        count,
    }
}

// What a turn of the sender sends to a subscriber.
#[derive(Clone, Copy, PartialEq, Eq)]
enum Gets {
    Nothing,
    // One SETUP, from the address from which the driver sends.
    Setup,
    Another,
}

// A driver, and the network. It can't be let go, since the driver can't.
struct Row<N: DriverNaming> {
    driver: Driver<N>,
    wire: Network,
    alloc: Global,
}

impl<N: DriverNaming> Row<N> {
    // The subscriber makes itself known.
    fn joins(&mut self, subscriber: &Address) {
        ask(&mut self.wire, subscriber, &CONTROL, &asking(1, 10));
    }

    // All that came to a subscriber.
    fn gets(&mut self, subscriber: &Address) -> Gets {
        let first = next(&mut self.wire, self.alloc, subscriber);
        let second = next(&mut self.wire, self.alloc, subscriber);
        match (first, second) {
            (None, None) => Gets::Nothing,
            (Some((Came::Setup, from)), None) if from.is(&SENDER) => Gets::Setup,
            _ => Gets::Another,
        }
    }

    // What both get by a turn of the sender at that moment.
    fn sends<R: Wait>(&mut self, rt: &R, now: u64) -> [Gets; 2] {
        self.driver.hand.sends(rt, &mut self.wire, now);
        [self.gets(&FIRST), self.gets(&SECOND)]
    }

    // The client publishes; `None` where there is no memory for its event.
    fn publishes<R: Wait>(&mut self, rt: &R) -> Option<()> {
        let event = publishes_at(self.alloc, CHANNEL, 10).ok()?;
        self.driver.hand.push(rt, attaches());
        self.driver.hand.push(rt, event);
        self.driver.conducts(rt, 0);
        Some(())
    }

    // The policy comes into force at that moment; `None` where there is no memory for it.
    fn reloads<R: Wait>(&mut self, rt: &R, now: u64, text: &str) -> Option<()> {
        let policy = policy(self.alloc, text)?;
        self.driver.hand.push(rt, Event::Reload { now, policy });
        self.driver.conducts(rt, now);
        Some(())
    }

    // Both make themselves known, and what they get at that moment.
    fn joined<R: Wait>(&mut self, rt: &R, now: u64) -> [Gets; 2] {
        self.joins(&FIRST);
        self.joins(&SECOND);
        self.sends(rt, now)
    }

    // The conductor has a turn at that moment, and what both get then.
    fn conducted<R: Wait>(&mut self, rt: &R, now: u64) -> [Gets; 2] {
        self.driver.conducts(rt, now);
        self.joined(rt, now)
    }

    // What both get before, during and after the half second, turn by turn.
    fn paused<R: Wait>(&mut self, rt: &R) -> Option<[[Gets; 2]; 5]> {
        self.reloads(rt, 8_500_000_000, PAUSE)?;
        Some([
            self.conducted(rt, 8_999_999_999),
            // The conductor has no turn yet.
            self.joined(rt, 9_200_000_000),
            self.conducted(rt, 9_200_000_000),
            self.conducted(rt, 9_499_999_999),
            self.conducted(rt, 9_500_000_000),
        ])
    }

    // What both get until then, turn by turn.
    fn served<R: Wait>(&mut self, rt: &R) -> Option<[[Gets; 2]; 7]> {
        self.publishes(rt)?;
        let alone = self.sends(rt, 0);
        self.joins(&FIRST);
        self.joins(&SECOND);
        let both = self.sends(rt, 0);
        self.joins(&FIRST);
        let still = self.sends(rt, 5_000_000_000);
        self.joins(&FIRST);
        let silent = self.sends(rt, 5_000_000_001);
        self.joins(&SECOND);
        let again = self.sends(rt, 6_000_000_000);
        self.reloads(rt, 6_000_000_000, POLICY)?;
        self.joins(&SECOND);
        let denied = self.sends(rt, 7_000_000_000);
        self.joins(&SECOND);
        let after = self.sends(rt, 8_000_000_000);
        Some([alone, both, still, silent, again, denied, after])
    }

    // Whether just that was counted: the second was denied to join twice, by the first rule of the second policy, and twice
    // nothing was sent to it, by that of the third.
    fn is_counted<R: Wait>(&self, rt: &R) -> bool {
        let tallies = self.driver.slots.journal.lock(rt).tallies.copy();
        let rows = [
            of_second(Miss::Denied, 2, 2),
            of_second(Miss::Withheld, 3, 2),
        ];
        tallies.rows() == rows.as_slice() && tallies.others() == 0
    }

    // The driver ends.
    fn end<R: Wait>(self, rt: &R) {
        let Row {
            driver,
            wire: _,
            alloc: _,
        } = self;
        driver.end(rt);
    }
}

// What both get in all, and whether what they did not get is counted.
type Seen = ([[Gets; 2]; 7], [[Gets; 2]; 5], bool);

// What is seen of a driver of these parts; `None` where there is no memory.
fn seen_of<N: DriverNaming, R: Wait>(rt: &R, alloc: Global, parts: Parts) -> Option<Seen>
    requires book { parts.publisher.book ≡ N.book }
    requires sound { IsSound (registry_of parts.publisher) }
    requires home { parts.pieces.arena.home ≡ N.home }
    requires names { (parts.pieces.messages.name ≡ N.ledger) × (parts.pieces.messages.parts ≡ N.parts) }
    requires four { parts.pieces.messages.parts ≡ 4 }
{
    let driver: Driver<N> = Driver::start(rt, alloc, parts)?;
    let wire = Network::new(alloc);
    let mut row = Row {
        driver,
        wire,
        alloc,
    };
    let served = row.served(rt);
    let paused = row.paused(rt);
    let counted = row.is_counted(rt);
    row.end(rt);
    Some((served?, paused?, counted))
}

// The same of a driver of its own.
fn shown<R: Wait>(rt: &R, alloc: Global) -> Option<Seen> {
    let parts = Parts::make(rt, alloc, Settings::default())?;
    seen_of::<Brand, R>(rt, alloc, parts)
}

// Before anybody joins nobody gets the SETUP that is cut. Both get the next, since they asked for one, and again 5 s later, which
// is the timeout. A nanosecond later the second is forgotten. It joins again; and once nobody may join it gets nothing more. Once it
// may, what it gets is decided at the moment of the newest registry: until the conductor had a turn in the half second, and from the
// turn at its end on, the second gets what the first does.
#[test]
fn destinations_are_learnt(rt: HostRuntime) {
    assert!(rt;
        shown(&rt, rt.alloc())
            == Some((
                [
                    [Gets::Nothing, Gets::Nothing],
                    [Gets::Setup, Gets::Setup],
                    [Gets::Setup, Gets::Setup],
                    [Gets::Setup, Gets::Nothing],
                    [Gets::Setup, Gets::Setup],
                    [Gets::Setup, Gets::Nothing],
                    [Gets::Setup, Gets::Nothing],
                ],
                [
                    [Gets::Setup, Gets::Setup],
                    [Gets::Setup, Gets::Setup],
                    [Gets::Setup, Gets::Nothing],
                    [Gets::Setup, Gets::Nothing],
                    [Gets::Setup, Gets::Setup],
                ],
                true,
            ))
    );
}
