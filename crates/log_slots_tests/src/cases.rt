ghost use Rattle.std.specs.Prelude.{◌≡◌};

use crate::closing::next_log_is_not_served;
use crate::images::image_goes;
use crate::offering::two_threads;
use crate::parts::make_parts;
use crate::shares::shares_come_together;
use log_arena::Arena;
use log_slots::Naming;
use std::alloc::Global;
use std::marker::Brand;
use std::sync::Wait;
use std::sync::ledger::Blank;
use std::thread::Threads;

/// What the parts of a driver show.
#[derive(Clone, Copy)]
enum Case {
    NextLogIsNotServed,
    TwoThreadsOffer,
    SharesComeTogether,
    ShareIsMissing,
    Image,
}

// Whether the parts that `N` names go as the case says; false without memory.
fn goes<N: Naming + Send + Sync + 'static, R: Threads + Wait + Sync>(
    rt: &R,
    alloc: Global,
    arena: Arena,
    messages: Blank,
    case: Case,
) -> bool
    requires home { arena.home ≡ N.home }
    requires messages { (messages.name ≡ N.ledger) × (messages.parts ≡ N.parts) × (messages.parts ≡ 4) }
{
    let Ok(parts) = make_parts::<N>(alloc, arena, messages) else {
        return false;
    };
    match case {
        Case::NextLogIsNotServed => next_log_is_not_served(rt, alloc, parts),
        Case::TwoThreadsOffer => two_threads(rt, alloc, parts) == Some((400, 400)),
        Case::SharesComeTogether => shares_come_together(rt, alloc, parts, false),
        Case::ShareIsMissing => shares_come_together(rt, alloc, parts, true),
        Case::Image => image_goes(alloc, parts),
    }
}

// Whether it goes so with parts that are made here.
fn is_shown<R: Threads + Wait + Sync>(rt: &R, alloc: Global, case: Case) -> bool {
    let Ok(arena) = Arena::new(alloc, 256) else {
        return false;
    };
    goes::<Brand, R>(rt, alloc, arena, Blank::new(4), case)
}

#[test]
fn polled_from_closed_log(rt: HostRuntime) {
    assert!(rt; is_shown(&rt, rt.alloc(), Case::NextLogIsNotServed));
}

#[test]
fn two_threads_offer_to_one_slot(rt: HostRuntime) {
    assert!(rt; is_shown(&rt, rt.alloc(), Case::TwoThreadsOffer));
}

#[test]
fn slots_give_their_shares(rt: HostRuntime) {
    assert!(rt; is_shown(&rt, rt.alloc(), Case::SharesComeTogether));
    assert!(rt; is_shown(&rt, rt.alloc(), Case::ShareIsMissing));
}

#[test]
fn image_behind_its_lock(rt: HostRuntime) {
    assert!(rt; is_shown(&rt, rt.alloc(), Case::Image));
}
