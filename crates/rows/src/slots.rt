//! What is done with slots, the live ones and those after them.

ghost use Rattle.std.specs.Prelude.{◌≡◌, ◌≤◌, ◌<◌, ◌+◌, ◌++◌, filter, length, map, slice_index_or, slice_set, take};
ghost use Rattle.std.specs.Vec.{vec_capacity};

use crate::change::Change;
use crate::test::Test;
use crate::twin::Twin;

/// Copies the row at `from` to the place `to`.
fn put_at<T: Twin>(slots: &mut [T], from: usize, to: usize)
    requires before { to ≤ from }
    requires within { from < length slots.old }
    ensures { (row : T) → slots.new ≡ slice_set slots.old to (slice_index_or slots.old from row) }
{
    if to < from {
        let (before, behind) = slots.split_at_mut(from);
        before[to].set_from(&behind[0]);
    }
}

/// Moves those of the first rows that pass the test to the front, and says how many they are.
pub(crate) fn keep<T: Twin, S: Test<T>>(slots: &mut [T], used: usize, test: &S) -> usize
    requires { used ≤ length slots.old }
    ensures few { result ≤ used }
    ensures kept { take result slots.new ≡ filter (S.keeps test.now) (take used slots.old) }
{
    let mut kept = 0;
    for at in 0..used {
        if test.keeps(&slots[at]) {
            put_at(slots, at, kept);
            kept += 1;
        }
    }
    kept
}

/// Changes each of the first rows.
pub(crate) fn change_first<T, S: Change<T>>(slots: &mut [T], used: usize, change: &S)
    requires { used ≤ length slots.old }
    ensures { take used slots.new ≡ map (S.changed change.now) (take used slots.old) }
{
    for at in 0..used {
        change.change(&mut slots[at]);
    }
}

/// Makes each of the first rows equal to the one that stands at its place.
pub(crate) fn set_first<T: Twin>(slots: &mut [T], used: usize, others: &[T])
    requires within { used ≤ length slots.old }
    requires among { used ≤ length others.now }
    ensures { take used slots.new ≡ take used others.now }
{
    for at in 0..used {
        slots[at].set_from(&others[at]);
    }
}

/// Puts rows that are equal to these after the others.
pub(crate) fn add_all<T: Twin>(slots: &mut Vec<T>, others: &[T])
    requires { length slots.old.items + length others.now ≤ vec_capacity slots.old }
    ensures rows { slots.new.items ≡ slots.old.items ++ others.now }
    ensures room { vec_capacity slots.old ≤ vec_capacity slots.new }
{
    for other in others {
        match slots.push(other.twin()) {
            Ok(()) => {}
            Err(_) => unreachable!(),
        }
    }
}
