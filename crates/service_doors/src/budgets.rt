//! What the connections of each door take of the processors, and how they rest for it.

ghost use Rattle.service_doors.specs.Budgets.{after_telling, is_due, new_spending, rest_within};
ghost use Rattle.std.specs.Prelude.{◌≡◌, ◌≤◌, ◌-◌};

use crate::bells::Bells;
use crate::doors::Door;
use door_budgets::Budget;
use program_parts::ticks;
use std::alloc::{AllocError, Global};
use std::sync::atomic::{AtomicU64, Ordering};
use std::sync::{Mutex, Wait};
use std::thread;
use std::time::{Clock, CpuClock, Duration};

/// How often a connection says what it took, in nanoseconds.
const SLICE: u64 = 500_000;

/// How long it sleeps before it looks whether the driver stops, in nanoseconds.
const NAP: u64 = 10_000_000;

/// Which part of the time for which the driver lets its client be silent it rests at once, at most: the driver is told that the
/// client is there after that, before the next request, once a quarter of the time is over.
const PART: u64 = 8;

/// What the clients of all doors took.
#[derive(Drop)]
pub(crate) struct Budgets {
    /// When an agent of the driver that carries messages had something to do last, in nanoseconds of the machine's clock.
    agents: AtomicU64,
    budget: Mutex<Budget>,
}

/// Nobody took anything yet of so many processors.
fn budget_of(alloc: Global, doors: &[Door], processors: u64) -> Result<Budget, AllocError> {
    let mut budget = Budget::new(alloc, processors);
    for door in doors {
        if let Some(principal) = door.principal {
            budget.open(principal)?;
        }
    }
    Ok(budget)
}

impl Budgets {
    /// Nothing was taken yet of so many processors by the clients at these doors.
    pub(crate) fn new(
        alloc: Global,
        doors: &[Door],
        processors: u64,
    ) -> Result<Budgets, AllocError> {
        Ok(Budgets {
            agents: AtomicU64::new(0),
            budget: Mutex::new(budget_of(alloc, doors, processors)?),
        })
    }

    /// An agent of the driver that carries messages has something to do.
    pub(crate) fn agent_works(&self, now: u64) {
        self.agents.store(now, Ordering::SeqCst);
    }

    /// A client of that principal took so much time of a processor. For how long it rests, in nanoseconds.
    pub(crate) fn took<R: Wait>(&self, rt: &R, principal: u32, now: u64, spent: u64) -> u64
        ensures { result ≤ 990000000 }
    {
        let carries = Budget::is_at_work(self.agents.load(Ordering::SeqCst), now);
        let mut budget = self.budget.lock(rt);
        budget.take(principal, now, spent, carries)
    }
}

/// How much of the processors this thread took so far, in nanoseconds, if that can be read.
fn taken_by_thread<R: CpuClock>(rt: &R) -> Option<u64> {
    match rt.thread_cpu_time() {
        Ok(taken) => Some(taken.as_nanos().min(u64::MAX as u128) as u64),
        Err(_) => None,
    }
}

/// What a connection took of the processors.
#[derive(Clone, Copy, Debug, PartialEq, Eq)]
pub(crate) struct Spending {
    /// How long the driver lets its client be silent, in nanoseconds.
    liveness: u64,
    /// When it said last what it took, in nanoseconds of the machine's clock.
    told: u64,
    /// How much its thread had taken then, in nanoseconds.
    taken: u64,
}

impl Spending {
    /// Nothing yet, by a client that the driver lets be silent for so long.
    pub(crate) fn new(liveness: u64) -> Spending
        ensures { result ≡ new_spending liveness }
    {
        Spending {
            liveness,
            told: 0,
            taken: 0,
        }
    }

    /// Whether it says now what it took: not if it did so a moment ago.
    fn is_due(&self, now: u64) -> bool
        ensures { result ≡ is_due self.now now }
    {
        now.saturating_sub(self.told) >= SLICE
    }

    /// It says what it took since it said so last: its thread took so much in all.
    fn tell(&mut self, now: u64, taken: u64) -> u64
        ensures spent { result ≡ taken - self.old.taken }
        ensures told { self.new ≡ after_telling self.old now taken }
    {
        let spent = taken.saturating_sub(self.taken);
        self.told = now;
        self.taken = taken;
        spent
    }

    /// For how long it rests at once that is to rest for so long.
    fn within(&self, rest: u64) -> u64
        ensures { result ≡ rest_within self.now.liveness rest }
    {
        rest.min(self.liveness / PART)
    }
}

/// Rests for so long from that moment on, in nanoseconds of the machine's clock, unless the driver stops.
fn rest_from<R: Clock>(rt: &R, bells: &Bells, from: u64, rest: u64) {
    let end = from.saturating_add(rest);
    // so often at most, even if the clock stands still
    for _ in 0..=rest / NAP {
        let left = end.saturating_sub(ticks(rt)).min(NAP);
        if left == 0 || bells.is_stopping() {
            return;
        }
        thread::sleep(rt, Duration::from_nanos(left));
    }
}

/// A connection of that principal says what it took, if it did not a moment ago, and rests for it, so that those go first who have
/// a part left.
pub(crate) fn give_way<R: Clock + CpuClock + Wait>(
    rt: &R,
    bells: &Bells,
    principal: u32,
    spending: &mut Spending,
)
    ensures { spending.new.liveness ≡ spending.old.liveness }
{
    let now = ticks(rt);
    if !spending.is_due(now) {
        return;
    }
    let Some(taken) = taken_by_thread(rt) else {
        return;
    };
    let spent = spending.tell(now, taken);
    let rest = bells.took(rt, principal, now, spent);
    rest_from(rt, bells, now, spending.within(rest));
}
