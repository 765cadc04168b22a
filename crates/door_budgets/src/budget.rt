//! What the clients of all doors took.

ghost use Rattle.door_budgets.specs.Taking.{after_taking_by, count_at_work, is_at_work, rest_of};
ghost use Rattle.door_budgets.specs.Budgets.{IsOpened, after_spending, new_budget};
ghost use Rattle.std.specs.Prelude.{◌≡◌, ◌≤◌, map};

use crate::taken::{Taken, is_at_work};
use std::alloc::{AllocError, Global};
use std::marker::Model;

/// How much the clients of all doors took of the processors.
#[derive(Drop)]
pub struct Budget {
    /// How many processors there are.
    processors: u64,
    doors: Vec<Taken>,
}

impl Model for Budget {
    ghost use Rattle.door_budgets.specs.Budgets.{Budgeted};

    ghost Value = { Budgeted };

    ghost view = { λ budget. record { processors = budget.processors; doors = budget.doors.items } };
}

/// How many others are at work than the clients of that principal.
fn others_at_work(doors: &[Taken], principal: u32, now: u64) -> u64
    ensures { result ≡ count_at_work principal now doors.now }
{
    let mut count = 0;
    for door in doors {
        if door.principal != principal && is_at_work(door.last, now) {
            count += 1;
        }
    }
    count
}

/// The clients of that principal took so much.
fn take_each(
    doors: &mut [Taken],
    principal: u32,
    now: u64,
    spent: u64,
    others: u64,
    carries: bool,
    processors: u64,
)
    ensures { doors.new ≡ map (after_taking_by principal now spent others carries processors) doors.old }
{
    for door in doors.iter_mut() {
        *door = door.take_by(principal, now, spent, others, carries, processors);
    }
}

/// For how long the clients of that principal rest.
fn rest_of(doors: &[Taken], principal: u32, now: u64) -> u64
    ensures { result ≡ rest_of principal now doors.now }
{
    for door in doors {
        if door.principal == principal {
            return door.rest(now);
        }
    }
    0
}

impl Budget {
    /// There is no door yet.
    pub fn new(alloc: Global, processors: u64) -> Budget
        ensures { result ≡ new_budget processors }
    {
        Budget {
            processors,
            doors: Vec::new(alloc),
        }
    }

    /// One more door, whose clients took nothing yet.
    ///
    /// # Errors
    /// No memory. Then it is as before.
    pub fn open(&mut self, principal: u32) -> Result<(), AllocError>
        ensures { IsOpened principal self.old self.new result }
    {
        self.doors.push(Taken {
            principal,
            last: 0,
            even: 0,
        })?;
        Ok(())
    }

    /// The clients of that principal took so much time of a processor, while the driver itself had something to carry or not. For
    /// how long they rest: for less than a second, whatever they took.
    pub fn take(&mut self, principal: u32, now: u64, spent: u64, carries: bool) -> u64
        ensures doors { self.new ≡ after_spending principal now spent carries self.old }
        ensures rest { result ≡ rest_of principal now self.new.doors }
        ensures most { result ≤ 990000000 }
    {
        let others = others_at_work(self.doors.as_slice(), principal, now);
        take_each(
            self.doors.as_mut_slice(),
            principal,
            now,
            spent,
            others,
            carries,
            self.processors,
        );
        rest_of(self.doors.as_slice(), principal, now)
    }

    /// Whether an agent of the driver is at work that had something to do at that moment last.
    pub fn is_at_work(last: u64, now: u64) -> bool
        ensures { result ≡ is_at_work last now }
    {
        is_at_work(last, now)
    }
}
