use crate::looking::{Sight, one_look};
use crate::opening::next;
use byte_strings::ShortText;
use channel_uri::Pattern;
use driver_core::{Event, Registry, Settings};
use policy_core::{Act, Acts, Policy, Principals, Rule};
use published_registry::{Pass, Publisher, make};
use std::alloc::Global;
use std::sync::Wait;
use std::test::Fail;

// A registry whose policy, number 1, allows offers from 1,000 on and before 2,000, and nothing else.
fn opened_for_a_time(alloc: Global) -> Option<Registry> {
    let rule = Rule {
        name: ShortText::new("for a time"),
        principals: Principals::Any,
        acts: Acts::none().with(Act::Offer),
        channel: Pattern::parse("*").ok()?,
        low: i32::MIN,
        high: i32::MAX,
        from: Some(1000),
        until: Some(2000),
        allow: true,
    };
    let policy = Policy::new(vec![in alloc; rule].ok()?, false).ok()?;
    Registry::new(alloc, Settings::default(), policy, &[]).ok()
}

// A moment that a tick tells, the moment of a look after it, and whether its policy allows an offer.
static TICKS: [(u64, u64, bool); 5] = [
    (999, 999, false),
    (1000, 1000, true),
    (1999, 1999, true),
    (1500, 1999, true),
    (2000, 2000, false),
];

// Commits a tick at that moment.
fn ticks<R: Wait>(rt: &R, alloc: Global, publisher: &mut Publisher, now: u64) -> bool {
    let event = Event::Tick { now };
    match next(alloc, publisher, &event) {
        Some(entry) => publisher.commit(rt, entry).is_ok(),
        None => false,
    }
}

// Whether a look is at that moment, and its policy allows an offer as is wanted.
fn is_at(sight: Option<Sight>, moment: u64, allows: bool) -> bool {
    match sight {
        Some(sight) => (sight.moment == moment) & (sight.allows == allows),
        None => false,
    }
}

// Whether the pass sees each moment, and the policy as it stands then.
fn sees_each<R: Wait>(rt: &R, alloc: Global, publisher: &mut Publisher, pass: Pass) -> bool {
    let mut pass = pass;
    let mut seen = true;
    for &(now, moment, allows) in &TICKS {
        let ticked = ticks(rt, alloc, publisher, now);
        let (again, sight) = one_look(pass);
        pass = again;
        seen &= ticked & is_at(sight, moment, allows);
    }
    seen
}

#[test]
fn a_look_stands_at_its_moment(rt: HostRuntime) -> Result<(), Fail> {
    let alloc = rt.alloc();
    let registry = opened_for_a_time(alloc).ok_or("nothing is opened")?;
    let (mut publisher, mut passes) = make(&rt, alloc, registry, 1).ok().ok_or("nothing is made")?;
    let seen = match passes.pop() {
        Some(pass) => sees_each(&rt, alloc, &mut publisher, pass),
        None => false,
    };
    drop(publisher.end(&rt));
    assert!(rt; seen);
    Ok(())
}
