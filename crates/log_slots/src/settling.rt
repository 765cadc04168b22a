//! What is left of the slots as a driver ends.

ghost use Rattle.std.specs.Prelude.{◌≡◌, ◌+◌, ◌<◌, ◌≤◌, ◌^◌, length};

use crate::amount::Amount;
use crate::naming::{Naming, OfMessages};
use crate::patient::lock_soon;
use crate::slot::Slot;
use std::sync::ledger::Total;
use std::sync::{Mutex, Wait};

/// What these slots have left joins another amount: so many had it still.
pub fn settle_all<N: Naming, R: Wait>(
    rt: &R,
    slots: &[Mutex<Slot<N>>],
    all: &mut Amount<N>,
    total: &Total<OfMessages<N>>,
) -> usize
    requires { total.now.amount < 2 ^ 64 }
    ensures parts { all.new.parts ≡ all.old.parts + result }
    ensures more { all.old.number ≤ all.new.number }
    ensures few { result ≤ length slots.now }
{
    let mut settled = 0;
    for slot in slots {
        if let Some(left) = lock_soon(rt, slot).settle() {
            all.merge(left, total);
            settled += 1;
        }
    }
    settled
}
