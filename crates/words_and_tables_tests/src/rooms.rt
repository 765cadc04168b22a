//! Tests of `rows`.

ghost use Rattle.std.specs.Prelude.{◌==◌, not, if◌then◌else◌};

use rows::{Change, Form, Rows, Test, Twin};
use std::alloc::Global;

/// A row with a value.
#[derive(Clone, Copy, Debug, PartialEq, Eq)]
struct Row {
    number: u64,
    value: u64,
}

impl Twin for Row {
    fn twin(&self) -> Row {
        *self
    }

    fn set_from(&mut self, other: &Row) {
        *self = *other;
    }
}

/// What a new row is made of.
#[derive(Clone, Copy)]
struct New {
    number: u64,
    value: u64,
}

impl Form<Row> for New {
    ghost formed = { λ new. record { number = new.number; value = new.value } };

    fn make(&self) -> Row {
        Row {
            number: self.number,
            value: self.value,
        }
    }

    fn write(&self, row: &mut Row) {
        row.number = self.number;
        row.value = self.value;
    }
}

/// The row of this number is given the value.
#[derive(Clone, Copy)]
struct Given {
    number: u64,
    value: u64,
}

impl Change<Row> for Given {
    ghost changed = { λ given row. if row.number == given.number then record row { value = given.value } else row };

    fn change(&self, row: &mut Row) {
        if row.number == self.number {
            row.value = self.value;
        }
    }
}

/// Whether a row has another number.
#[derive(Clone, Copy)]
struct Others {
    number: u64,
}

impl Test<Row> for Others {
    ghost keeps = { λ others row. not (row.number == others.number) };

    fn keeps(&self, row: &Row) -> bool {
        row.number != self.number
    }
}

/// What is done with rows.
#[derive(Clone, Copy)]
enum Step {
    Push(Row),
    PushBy(New),
    Change(Given),
    Retain(Others),
    Clear,
}

/// At most three rows.
type Three = Rows<Row, 3>;

fn take(rows: &mut Three, step: Step) {
    match step {
        Step::Push(row) => {
            if rows.len() < 3 {
                rows.push(row);
            }
        }
        Step::PushBy(new) => {
            if rows.len() < 3 {
                rows.push_by(&new);
            }
        }
        Step::Change(given) => rows.change(&given),
        Step::Retain(others) => rows.retain(&others),
        Step::Clear => rows.clear(),
    }
}

const FIRST: Row = Row {
    number: 1,
    value: 10,
};

const SECOND: Row = Row {
    number: 2,
    value: 20,
};

const CHANGED: Row = Row {
    number: 2,
    value: 21,
};

/// It makes the first row.
const NEW: New = New {
    number: 1,
    value: 10,
};

/// A step, rows, and whether they are those after it.
static STEPS: [(Step, &[Row], bool); 17] = [
    (Step::Push(FIRST), &[FIRST], true),
    (Step::Push(SECOND), &[FIRST, SECOND], true),
    (Step::Push(FIRST), &[FIRST, SECOND, FIRST], true),
    (
        Step::Change(Given {
            number: 2,
            value: 21,
        }),
        &[FIRST, CHANGED, FIRST],
        true,
    ),
    (
        Step::Retain(Others { number: 3 }),
        &[FIRST, CHANGED, FIRST],
        true,
    ),
    (Step::Retain(Others { number: 1 }), &[CHANGED], true),
    (Step::Push(SECOND), &[CHANGED, SECOND], true),
    (Step::PushBy(NEW), &[CHANGED, SECOND, FIRST], true),
    (Step::Retain(Others { number: 2 }), &[FIRST], true),
    (Step::Clear, &[], true),
    (Step::Push(SECOND), &[SECOND], true),
    (Step::PushBy(NEW), &[SECOND, FIRST], true),
    (Step::Retain(Others { number: 1 }), &[SECOND], true),
    (Step::PushBy(NEW), &[SECOND, CHANGED], false),
    (Step::Clear, &[SECOND], false),
    (Step::Push(FIRST), &[SECOND], false),
    (Step::Retain(Others { number: 3 }), &[], false),
];

/// Whether the steps, one after the other, leave these rows.
fn leave(rows: &mut Three, steps: &[(Step, &[Row], bool)]) -> bool {
    let mut same = true;
    for &(step, left, wanted) in steps {
        take(rows, step);
        same &= (rows.as_slice() == left) == wanted;
    }
    same
}

/// Rows of these values, of which there are at most three.
fn three(alloc: Global, rows: &[Row]) -> Option<Three> {
    if rows.len() > 3 {
        return None;
    }
    Three::of(Vec::from_slice(alloc, rows).ok()?).ok()
}

fn steps_leave(alloc: Global) -> bool {
    match three(alloc, &[]) {
        Some(mut rows) => leave(&mut rows, &STEPS),
        None => false,
    }
}

/// Whether a copy of the rows is the wanted one.
fn copy_is(alloc: Global, rows: &Three, wanted: &[Row]) -> bool {
    match rows.copy(alloc) {
        Ok(copy) => copy.as_slice() == wanted,
        Err(_) => false,
    }
}

/// Whether others that became equal to the rows are the wanted ones.
fn other_is(alloc: Global, rows: &Three, wanted: &[Row]) -> bool {
    match three(alloc, &[CHANGED, CHANGED]) {
        Some(mut other) => {
            other.set_from(rows);
            other.as_slice() == wanted
        }
        None => false,
    }
}

/// Rows, others, and whether copies of the first are equal to them.
static COPIES: [(&[Row], &[Row], bool); 5] = [
    (&[], &[], true),
    (&[FIRST], &[FIRST], true),
    (&[FIRST, SECOND, FIRST], &[FIRST, SECOND, FIRST], true),
    (&[FIRST, SECOND], &[FIRST, CHANGED], false),
    (&[FIRST, SECOND], &[FIRST], false),
];

fn is_copied(alloc: Global, rows: &[Row], wanted: &[Row], so: bool) -> bool {
    match three(alloc, rows) {
        Some(rows) => {
            (copy_is(alloc, &rows, wanted) == so) & (other_is(alloc, &rows, wanted) == so)
        }
        None => false,
    }
}

fn are_copied(alloc: Global, cases: &[(&[Row], &[Row], bool)]) -> bool {
    for &(rows, wanted, so) in cases {
        if !is_copied(alloc, rows, wanted, so) {
            return false;
        }
    }
    true
}

#[test]
fn rows_change_in_their_room(rt: HostRuntime) {
    assert!(rt; steps_leave(rt.alloc()) & are_copied(rt.alloc(), &COPIES));
}
