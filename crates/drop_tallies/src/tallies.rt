ghost use Rattle.drop_tallies.specs.Tallies.{has, none, noted, one_more};
ghost use Rattle.std.specs.Prelude.{◌≡◌, ◌≤◌, ◌+◌, ◌-◌, ◌^◌, length, map, min};

use crate::miss::Miss;
use crate::repairs::Repairs;
use crate::tally::Tally;
use arrayvec::ArrayVec;
use channel_uri::Address;
use policy_core::Verdict;
use std::marker::Model;

/// What happened how often, in the order in which each happened first.
#[derive(Debug, Drop)]
pub struct Tallies {
    rows: ArrayVec<Tally, 64>,
    /// How often it was something else, once 64 different ones were there.
    others: u64,
    repairs: Repairs,
}

impl Model for Tallies {
    ghost use Rattle.drop_tallies.specs.Tallies.{Table};

    ghost Value = { Table };

    ghost view = { λ tallies. record { rows = tallies.rows.items; others = tallies.others; repairs = tallies.repairs } };
}

/// Whether one of these is like that.
fn has(rows: &[Tally], other: &Tally) -> bool
    ensures { result ≡ has rows.now other.now }
{
    for row in rows {
        if row.is_like(other) {
            return true;
        }
    }
    false
}

/// These, where what is like that happened once more.
fn counted(rows: &[Tally], other: &Tally) -> ArrayVec<Tally, 64>
    requires { length rows.now ≤ 64 }
    ensures { result.items ≡ map (one_more other.now) rows.now }
{
    let mut counted = ArrayVec::new();
    for row in rows {
        counted.push(row.one_more(other));
    }
    counted
}

/// The same rows.
fn copied(rows: &[Tally]) -> ArrayVec<Tally, 64>
    requires { length rows.now ≤ 64 }
    ensures { result.items ≡ rows.now }
{
    let mut copied = ArrayVec::new();
    for row in rows {
        copied.push(*row);
    }
    copied
}

impl Tallies {
    /// Nothing happened yet. It takes no memory.
    pub fn new() -> Tallies
        ensures { result ≡ none }
    {
        Tallies {
            rows: ArrayVec::new(),
            others: 0,
            repairs: Repairs {
                heard: 0,
                asked: 0,
                resent: 0,
            },
        }
    }

    /// What happened, in the order in which each happened first.
    pub fn rows(&self) -> &[Tally]
        ensures { result.now ≡ self.now.rows }
    {
        self.rows.as_slice()
    }

    /// How often it was something else, once 64 different ones were there.
    pub fn others(&self) -> u64
        ensures { result ≡ self.now.others }
    {
        self.others
    }

    /// How often lost data was asked for, and sent again.
    pub fn repairs(&self) -> Repairs
        ensures { result ≡ self.now.repairs }
    {
        self.repairs
    }

    /// A NAK came.
    pub fn hear(&mut self)
        ensures { self.new ≡ record self.old { repairs = record self.old.repairs { heard = min (self.old.repairs.heard + 1) (2 ^ 64 - 1) } } }
    {
        self.repairs.heard = self.repairs.heard.saturating_add(1);
    }

    /// A NAK is due to a publisher.
    pub fn ask(&mut self)
        ensures { self.new ≡ record self.old { repairs = record self.old.repairs { asked = min (self.old.repairs.asked + 1) (2 ^ 64 - 1) } } }
    {
        self.repairs.asked = self.repairs.asked.saturating_add(1);
    }

    /// So many datagrams were cut again.
    pub fn resend(&mut self, datagrams: u64)
        ensures { self.new ≡ record self.old { repairs = record self.old.repairs { resent = min (self.old.repairs.resent + datagrams) (2 ^ 64 - 1) } } }
    {
        self.repairs.resent = self.repairs.resent.saturating_add(datagrams);
    }

    /// The same. It takes no memory.
    pub fn copy(&self) -> Tallies
        ensures { result ≡ self.now }
    {
        Tallies {
            rows: copied(self.rows.as_slice()),
            others: self.others,
            repairs: self.repairs,
        }
    }

    /// It happened once more. A number stays at the greatest one. It takes no memory.
    #[tactic(auto, unfolding(crate::specs::Tallies::noted))]
    pub fn note(&mut self, miss: Miss, verdict: Option<Verdict>, address: &Address)
        ensures { self.new ≡ noted (record { miss = miss; verdict = verdict; address = address.now; count = 1 }) self.old }
    {
        let tally = Tally {
            miss,
            verdict,
            address: *address,
            count: 1,
        };
        if has(self.rows.as_slice(), &tally) {
            self.rows = counted(self.rows.as_slice(), &tally);
        } else if self.rows.is_full() {
            self.others = self.others.saturating_add(1);
        } else {
            self.rows.push(tally);
        }
    }
}
