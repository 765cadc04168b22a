ghost use Rattle.std.specs.Prelude.{◌≡◌, ◌≤◌, ◌<◌, ◌++◌, ◌∷◌, [], length, filter, map, IfOk, slice_set};

use crate::change::Change;
use crate::form::Form;
use crate::slots::{add_all, change_first, keep, set_first};
use crate::test::Test;
use crate::twin::Twin;
use std::alloc::{AllocError, Global};
use std::marker::Model;

/// At most N rows, in room that is there from the beginning. A row that is taken away stays after the others, unseen, until
/// one is written over it.
#[derive(Debug, Drop)]
pub struct Rows<T, const N: usize> {
    /// The rows, and after them those that were taken away.
    slots: Vec<T>,
    /// How many rows there are.
    used: usize,
}

impl<T, const N: usize> Model for Rows<T, N> {
    ghost use Rattle.std.specs.Prelude.{◌≤◌, List, length, take};
    ghost use Rattle.std.specs.Vec.{vec_capacity};

    ghost Value = { List T };

    ghost view = { λ rows. take rows.used rows.slots.items };

    ghost invariant = { λ rows. (rows.used ≤ length rows.slots.items) × (length rows.slots.items ≤ N) × (N ≤ vec_capacity rows.slots) };
}

impl<T: Drop, const N: usize> Rows<T, N> {
    /// No rows yet, and room for N.
    pub fn new(alloc: Global) -> Result<Rows<T, N>, AllocError>
        ensures { IfOk result (λ rows. rows ≡ []) }
    {
        Ok(Rows {
            slots: Vec::with_capacity(alloc, N)?,
            used: 0,
        })
    }

    /// These rows, with room for N.
    pub fn of(items: Vec<T>) -> Result<Rows<T, N>, AllocError>
        requires { length items.items ≤ N }
        ensures { IfOk result (λ rows. rows ≡ items.items) }
    {
        let mut slots = items;
        let used = slots.len();
        slots.reserve(N - used)?;
        Ok(Rows { slots, used })
    }

    pub fn as_slice(&self) -> &[T]
        ensures value { result.now ≡ self.now }
        ensures few { length result.now ≤ N }
    {
        &self.slots[..self.used]
    }

    pub fn len(&self) -> usize
        ensures value { result ≡ length self.now }
        ensures few { result ≤ N }
    {
        self.used
    }

    /// Takes away all rows.
    pub fn clear(&mut self)
        ensures { self.new ≡ [] }
    {
        self.used = 0;
    }

    /// Puts a row after the others.
    pub fn push(&mut self, row: T)
        requires { length self.old < N }
        ensures { self.new ≡ self.old ++ row ∷ [] }
    {
        if self.used < self.slots.len() {
            self.slots[self.used] = row;
        } else {
            match self.slots.push(row) {
                Ok(()) => {}
                Err(_) => unreachable!(),
            }
        }
        self.used += 1;
    }

    /// Makes a row after the others.
    pub fn push_by<F: Form<T>>(&mut self, form: &F)
        requires { length self.old < N }
        ensures { self.new ≡ self.old ++ F.formed form.now ∷ [] }
    {
        if self.used < self.slots.len() {
            form.write(&mut self.slots[self.used]);
        } else {
            match self.slots.push(form.make()) {
                Ok(()) => {}
                Err(_) => unreachable!(),
            }
        }
        self.used += 1;
    }

    /// Puts a row in the place of the one that stands there.
    pub fn set(&mut self, at: usize, row: T)
        requires { at < length self.old }
        ensures { self.new ≡ slice_set self.old at row }
    {
        self.slots[at] = row;
    }

    /// Changes each row.
    pub fn change<S: Change<T>>(&mut self, change: &S)
        ensures { self.new ≡ map (S.changed change.now) self.old }
    {
        change_first(self.slots.as_mut_slice(), self.used, change);
    }
}

impl<T: Twin, const N: usize> Rows<T, N> {
    /// Takes away the rows that fail the test.
    pub fn retain<S: Test<T>>(&mut self, test: &S)
        ensures { self.new ≡ filter (S.keeps test.now) self.old }
    {
        self.used = keep(self.slots.as_mut_slice(), self.used, test);
    }

    /// Makes these rows equal to the others.
    pub fn set_from(&mut self, other: &Rows<T, N>)
        ensures { self.new ≡ other.now }
    {
        let others = other.as_slice();
        let over = others.len().min(self.slots.len());
        set_first(self.slots.as_mut_slice(), over, others);
        add_all(&mut self.slots, &others[over..]);
        self.used = others.len();
    }

    /// Other rows, equal to these.
    pub fn copy(&self, alloc: Global) -> Result<Rows<T, N>, AllocError>
        ensures { IfOk result (λ copy. copy ≡ self.now) }
    {
        let mut copy = Rows::new(alloc)?;
        copy.set_from(self);
        Ok(copy)
    }
}
