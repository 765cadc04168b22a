// The three agents over a wire of which one call fails, or all from one on: each call of a run of 40 turns in its turn.
ghost use Rattle.driver_core.specs.Soundness.{IsSound};
ghost use Rattle.published_registry.specs.Histories.{registry_of};
ghost use Rattle.std.specs.Prelude.{◌≡◌};

use crate::driver::Driver;
use crate::parts::Parts;
use driver_core::Settings;
use media_agents::{DriverNaming, Miss, Tallies};
use media_wire::{Faulty, Network, Wire};
use std::alloc::Global;
use std::marker::Brand;
use std::sync::Wait;

// How many turns each agent has, and how many nanoseconds lie between two of them: a lost SETUP is sent again four turns later.
const TURNS: u64 = 40;

const STEP: u64 = 30_000_001;

// What is seen of a run.
#[derive(Clone, Copy, PartialEq, Eq)]
struct Seen {
    // Whether no event was refused memory.
    whole: bool,
    // Whether each publication and each image had its log behind its lock after each turn in which a call failed.
    kept: bool,
    // How many images there are after the second turn of the conductor, and after the last one.
    early: Option<usize>,
    late: Option<usize>,
    // How many calls of the wire failed.
    failures: u64,
    // How many the driver counted of them.
    counted: u64,
}

// How many calls that failed are counted.
fn failed_in(tallies: &Tallies) -> u64 {
    let mut failed = tallies.others();
    for row in tallies.rows() {
        if matches!(row.miss, Miss::Unsent | Miss::Unheard) {
            failed = failed.saturating_add(row.count);
        }
    }
    failed
}

// A driver, and the wire that its sender and its receiver send and read by. It can't be let go, since the driver can't.
struct Run<N: DriverNaming> {
    driver: Driver<N>,
    wire: Faulty<Network>,
    whole: bool,
    kept: bool,
}

impl<N: DriverNaming> Run<N> {
    // The conductor has a turn.
    fn conducts<R: Wait>(&mut self, rt: &R, now: u64) {
        let misses = self.driver.conducts(rt, now);
        self.whole = self.whole && misses == 0;
    }

    // How many images there are by a look; `None` where there is no look.
    fn images<R: Wait>(&mut self, rt: &R) -> Option<usize> {
        let sight = self.driver.hand.looks(rt)?;
        Some(sight.images)
    }

    // Whether each publication and each image of the newest registry has its log behind its lock.
    fn has_logs<R: Wait>(&mut self, rt: &R) -> bool {
        match self.driver.hand.looks(rt) {
            Some(sight) => sight.open,
            None => false,
        }
    }

    // A turn has ended, before which so many calls had failed. Where one failed in it, the logs are looked at.
    fn ended<R: Wait>(&mut self, rt: &R, before: u64) {
        if self.wire.failures() > before {
            let kept = self.has_logs(rt);
            self.kept = self.kept && kept;
        }
    }

    // The sender has a turn.
    fn sends<R: Wait>(&mut self, rt: &R, now: u64) {
        let before = self.wire.failures();
        self.driver.hand.sends(rt, &mut self.wire, now);
        self.ended(rt, before);
    }

    // The receiver has a turn.
    fn receives<R: Wait>(&mut self, rt: &R, now: u64) {
        let before = self.wire.failures();
        self.driver.hand.receives(rt, &mut self.wire, now);
        self.ended(rt, before);
    }

    // The first two turns, and how many images there are once the conductor has had its second one.
    fn first_turns<R: Wait>(&mut self, rt: &R) -> Option<usize> {
        self.conducts(rt, 0);
        self.sends(rt, 0);
        self.receives(rt, 0);
        self.conducts(rt, STEP);
        let images = self.images(rt);
        self.sends(rt, STEP);
        self.receives(rt, STEP);
        images
    }

    // The turns after these.
    fn other_turns<R: Wait>(&mut self, rt: &R) {
        for turn in 2..TURNS {
            let now = turn.saturating_mul(STEP);
            self.conducts(rt, now);
            self.sends(rt, now);
            self.receives(rt, now);
        }
    }

    // The client's events are pushed, and all turns are had. `None` where there is no memory for an event.
    fn served<R: Wait>(&mut self, rt: &R, alloc: Global) -> Option<Seen> {
        self.driver.hand.push_all(rt, alloc).ok()?;
        let early = self.first_turns(rt);
        self.other_turns(rt);
        let late = self.images(rt);
        let tallies = self.driver.slots.journal.lock(rt).tallies.copy();
        Some(Seen {
            whole: self.whole,
            kept: self.kept,
            early,
            late,
            failures: self.wire.failures(),
            counted: failed_in(&tallies),
        })
    }

    // The driver ends.
    fn end<R: Wait>(self, rt: &R) {
        let Run {
            driver,
            wire: _,
            whole: _,
            kept: _,
        } = self;
        driver.end(rt);
    }
}

// A run of a driver of these parts over that wire; `None` where there is no memory.
fn seen_of<N: DriverNaming, R: Wait>(
    rt: &R,
    alloc: Global,
    parts: Parts,
    wire: Faulty<Network>,
) -> Option<Seen>
    requires book { parts.publisher.book ≡ N.book }
    requires sound { IsSound (registry_of parts.publisher) }
    requires home { parts.pieces.arena.home ≡ N.home }
    requires names { (parts.pieces.messages.name ≡ N.ledger) × (parts.pieces.messages.parts ≡ N.parts) }
    requires four { parts.pieces.messages.parts ≡ 4 }
{
    let driver: Driver<N> = Driver::start(rt, alloc, parts)?;
    let mut run = Run {
        driver,
        wire,
        whole: true,
        kept: true,
    };
    let seen = run.served(rt, alloc);
    run.end(rt);
    seen
}

// A run of a driver of its own: so many calls go through, and the one after them fails, or all from there on.
fn failing<R: Wait>(rt: &R, alloc: Global, ahead: u64, lasts: bool) -> Option<Seen> {
    let mut settings = Settings::default();
    settings.arena_pages = 320;
    let parts = Parts::make(rt, alloc, settings)?;
    let wire = Faulty::new(Network::new(alloc), ahead, lasts);
    seen_of::<Brand, R>(rt, alloc, parts, wire)
}

// A run makes so many calls. Each of 40 turns of either agent finds nothing more to read: 80. Three SETUPs are sent and read.
// So are three heartbeats, more than 100 ms after the last datagram: in every fourth turn, nine times. And so are three status
// messages, once an image is there, and then more than 200 ms after the last one: in every seventh turn, six times.
const CALLS: u64 = 80 + 6 + 54 + 36;

// How many images there are after the second turn of the conductor, for the first eight calls, if that one fails. The sender
// finds nothing to read, and sends three SETUPs; the receiver reads three, and finds no more. A send that fails is the loss of
// that datagram. A read that fails ends the reading of that turn, and what was not read is read in the next one.
const ONE_FAILS: [usize; 8] = [3, 2, 2, 2, 0, 1, 2, 3];

// So if that one and all after it fail: there are as many images as SETUPs were read.
const ALL_FAIL: [usize; 8] = [0, 0, 0, 0, 0, 1, 2, 3];

// How many images there are early, as a row has it for its calls, and else all three.
fn wanted(row: &[usize; 8], ahead: u64) -> usize {
    match row.get(ahead as usize) {
        Some(count) => *count,
        None => 3,
    }
}

// Whether a run in which one call failed is as it has to be. By the last turn all that was lost is repaired, since a SETUP that
// nobody answers is sent again.
fn is_repaired(seen: Seen, ahead: u64) -> bool {
    let wanted = Seen {
        whole: true,
        kept: true,
        early: Some(wanted(&ONE_FAILS, ahead)),
        late: Some(3),
        failures: 1,
        counted: 1,
    };
    seen == wanted
}

// Whether one in which all calls failed from there on is: it stays as it was.
fn is_cut_off(seen: Seen, ahead: u64) -> bool {
    let images = Some(wanted(&ALL_FAIL, ahead));
    let wanted = Seen {
        whole: true,
        kept: true,
        early: images,
        late: images,
        failures: seen.failures,
        counted: seen.failures,
    };
    seen == wanted && seen.failures > 0
}

// Whether a run is as it has to be in which that call fails, or all from it on.
fn goes_well<R: Wait>(rt: &R, alloc: Global, ahead: u64, lasts: bool) -> bool {
    match failing(rt, alloc, ahead, lasts) {
        Some(seen) if lasts => is_cut_off(seen, ahead),
        Some(seen) => is_repaired(seen, ahead),
        None => false,
    }
}

// So for each of 22 calls from one on.
fn go_well<R: Wait>(rt: &R, alloc: Global, first: u64, lasts: bool) -> bool {
    for at in 0..22 {
        if !goes_well(rt, alloc, first.saturating_add(at), lasts) {
            return false;
        }
    }
    true
}

#[test]
fn no_call_fails(rt: HostRuntime) {
    let wanted = Seen {
        whole: true,
        kept: true,
        early: Some(3),
        late: Some(3),
        failures: 0,
        counted: 0,
    };
    assert!(rt; failing(&rt, rt.alloc(), CALLS, true) == Some(wanted));
}

#[test]
fn calls_from_0_fail_once(rt: HostRuntime) {
    assert!(rt; go_well(&rt, rt.alloc(), 0, false));
}

#[test]
fn calls_from_22_fail_once(rt: HostRuntime) {
    assert!(rt; go_well(&rt, rt.alloc(), 22, false));
}

#[test]
fn calls_from_44_fail_once(rt: HostRuntime) {
    assert!(rt; go_well(&rt, rt.alloc(), 44, false));
}

#[test]
fn calls_from_66_fail_once(rt: HostRuntime) {
    assert!(rt; go_well(&rt, rt.alloc(), 66, false));
}

#[test]
fn calls_from_88_fail_once(rt: HostRuntime) {
    assert!(rt; go_well(&rt, rt.alloc(), 88, false));
}

#[test]
fn calls_from_110_fail_once(rt: HostRuntime) {
    assert!(rt; go_well(&rt, rt.alloc(), 110, false));
}

#[test]
fn calls_from_132_fail_once(rt: HostRuntime) {
    assert!(rt; go_well(&rt, rt.alloc(), 132, false));
}

#[test]
fn calls_from_154_fail_once(rt: HostRuntime) {
    assert!(rt; go_well(&rt, rt.alloc(), 154, false));
}

#[test]
fn all_fail_from_calls_from_0(rt: HostRuntime) {
    assert!(rt; go_well(&rt, rt.alloc(), 0, true));
}

#[test]
fn all_fail_from_calls_from_22(rt: HostRuntime) {
    assert!(rt; go_well(&rt, rt.alloc(), 22, true));
}

#[test]
fn all_fail_from_calls_from_44(rt: HostRuntime) {
    assert!(rt; go_well(&rt, rt.alloc(), 44, true));
}

#[test]
fn all_fail_from_calls_from_66(rt: HostRuntime) {
    assert!(rt; go_well(&rt, rt.alloc(), 66, true));
}

#[test]
fn all_fail_from_calls_from_88(rt: HostRuntime) {
    assert!(rt; go_well(&rt, rt.alloc(), 88, true));
}

#[test]
fn all_fail_from_calls_from_110(rt: HostRuntime) {
    assert!(rt; go_well(&rt, rt.alloc(), 110, true));
}

#[test]
fn all_fail_from_calls_from_132(rt: HostRuntime) {
    assert!(rt; go_well(&rt, rt.alloc(), 132, true));
}

#[test]
fn all_fail_from_calls_from_154(rt: HostRuntime) {
    assert!(rt; go_well(&rt, rt.alloc(), 154, true));
}
