use crate::looking::{Sight, one_look};
use crate::opening::{opened, reload};
use published_registry::{Begun, Pass, Publisher, make};
use std::alloc::Global;
use std::sync::Wait;
use std::test::Fail;

// A commit in two calls: what a reader sees between them, the number and the policy's number that the publisher has then,
// the number of the receipt, and what a reader sees afterwards; and whether what it looked at last is the newest that is shown:
// between the calls, after them, and after a look.
#[derive(Clone, Copy, Debug, PartialEq, Eq)]
struct Halves {
    between: Option<Sight>,
    begun: (u64, u64),
    receipt: u64,
    shown: Option<Sight>,
    newest: (bool, bool, bool),
}

// The second half, with a look before and one after it.
fn second_half<R: Wait>(rt: &R, begun: Begun, pass: Pass) -> Halves {
    let (pass, between) = one_look(pass);
    let at = (begun.number(), begun.newest().epoch());
    let before = pass.is_at_newest();
    let (publisher, receipt) = begun.show(rt);
    let after = pass.is_at_newest();
    let (pass, shown) = one_look(pass);
    let newest = (before, after, pass.is_at_newest());
    drop(pass);
    drop(publisher.end(rt));
    Halves {
        between,
        begun: at,
        receipt: receipt.number(),
        shown,
        newest,
    }
}

// A policy that denies all is put in force in two calls.
fn in_halves<R: Wait>(rt: &R, alloc: Global, publisher: Publisher, pass: Pass) -> Option<Halves> {
    let Some(entry) = reload(alloc, &publisher, false) else {
        drop(publisher.end(rt));
        return None;
    };
    match publisher.begin(entry) {
        Ok(begun) => Some(second_half(rt, begun, pass)),
        Err((publisher, _)) => {
            drop(publisher.end(rt));
            None
        }
    }
}

#[test]
fn begun_is_not_shown(rt: HostRuntime) -> Result<(), Fail> {
    let alloc = rt.alloc();
    let registry = opened(alloc)?;
    let (publisher, mut passes) = make(&rt, alloc, registry, 1).ok().ok_or("nothing is made")?;
    let halves = match passes.pop() {
        Some(pass) => in_halves(&rt, alloc, publisher, pass),
        None => {
            drop(publisher.end(&rt));
            None
        }
    };
    let wanted = Halves {
        between: Some(Sight {
            number: 0,
            moment: 0,
            epoch: 1,
            allows: true,
        }),
        begun: (1, 2),
        receipt: 1,
        shown: Some(Sight {
            number: 1,
            moment: 0,
            epoch: 2,
            allows: false,
        }),
        newest: (true, false, true),
    };
    assert_eq!(rt; halves, Some(wanted));
    Ok(())
}
