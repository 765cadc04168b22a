ghost use Rattle.learnt_addresses.specs.LearntAddresses.{has, heard_again, is_other, stands};
ghost use Rattle.std.specs.Prelude.{◌≡◌, ◌≤◌, filter, length, map};

use crate::learning::Learning;
use crate::learnt_address::LearntAddress;
use arrayvec::ArrayVec;
use channel_uri::Address;
use std::marker::Model;

/// The addresses to which the datagrams of a log go, at most 32, in the order in which they were learnt.
#[derive(Debug, Drop)]
pub struct LearntAddresses {
    rows: ArrayVec<LearntAddress, 32>,
}

impl Model for LearntAddresses {
    ghost use Rattle.learnt_addresses.specs.Laws.{AreOnce};
    ghost use Rattle.learnt_addresses.specs.declared.learnt_address.LearntAddress.{LearntAddress as Row};
    ghost use Rattle.std.specs.Prelude.{List};

    ghost Value = { List Row };

    ghost view = { λ learnt. learnt.rows.items };

    ghost invariant = { λ learnt. AreOnce learnt.rows.items };
}

/// Whether the address is one of these.
fn has(rows: &[LearntAddress], address: &Address) -> bool
    ensures { result ≡ has rows.now address.now }
{
    for row in rows {
        if row.address == *address {
            return true;
        }
    }
    false
}

/// These, where a status message came from that address at the moment `now`.
fn renewed(rows: &[LearntAddress], now: u64, address: &Address) -> ArrayVec<LearntAddress, 32>
    requires { length rows.now ≤ 32 }
    ensures { result.items ≡ map (heard_again now address.now) rows.now }
{
    let mut renewed = ArrayVec::new();
    for row in rows {
        renewed.push(row.heard_again(now, address));
    }
    renewed
}

/// All of these but that address.
#[tactic(auto, using(crate::proofs::OrderLemmas::room_left))]
fn without(rows: &[LearntAddress], address: &Address) -> ArrayVec<LearntAddress, 32>
    requires { length rows.now ≤ 32 }
    ensures { result.items ≡ filter (is_other address.now) rows.now }
{
    let mut others = ArrayVec::new();
    for row in rows {
        if row.address != *address {
            others.push(*row);
        }
    }
    others
}

/// Those from which a status message came not longer ago than `timeout`.
#[tactic(auto, using(crate::proofs::OrderLemmas::room_left))]
fn standing(rows: &[LearntAddress], now: u64, timeout: u64) -> ArrayVec<LearntAddress, 32>
    requires { length rows.now ≤ 32 }
    ensures { result.items ≡ filter (stands now timeout) rows.now }
{
    let mut standing = ArrayVec::new();
    for row in rows {
        if row.stands(now, timeout) {
            standing.push(*row);
        }
    }
    standing
}

impl LearntAddresses {
    ghost use Rattle.learnt_addresses.specs.LearntAddresses.{forgotten, learning, learnt, none, standing};
    ghost use Rattle.learnt_addresses.specs.Laws.{AreOrderly};

    /// None was learnt yet. It takes no memory.
    pub fn new() -> LearntAddresses
        ensures { result ≡ none }
    {
        LearntAddresses {
            rows: ArrayVec::new(),
        }
    }

    /// The addresses, in the order in which they were learnt.
    pub fn destinations(&self) -> &[LearntAddress]
        ensures value { result.now ≡ self.now }
        ensures orderly { AreOrderly self.now }
    {
        self.rows.as_slice()
    }

    /// A status message came from that address at the moment `now`, in nanoseconds. It is learnt, or heard of again; where 32
    /// others are there, nothing is changed.
    #[tactic(auto, unfolding(crate::specs::LearntAddresses::learning, crate::specs::LearntAddresses::learnt))]
    pub fn learn_destination(&mut self, now: u64, address: &Address) -> Learning
        ensures answer { result ≡ learning self.old address.now }
        ensures after { self.new ≡ learnt now address.now self.old }
    {
        if has(self.rows.as_slice(), address) {
            self.rows = renewed(self.rows.as_slice(), now, address);
            return Learning::Renewed;
        }
        if self.rows.is_full() {
            return Learning::Full;
        }
        self.rows.push(LearntAddress {
            address: *address,
            heard: now,
        });
        Learning::Learnt
    }

    /// That address is no destination any more, if it was one.
    pub fn forget_destination(&mut self, address: &Address)
        ensures { self.new ≡ forgotten address.now self.old }
    {
        self.rows = without(self.rows.as_slice(), address);
    }

    /// Those from which a status message came longer ago than `timeout`, in nanoseconds, are no destinations any more.
    pub fn expire_destinations(&mut self, now: u64, timeout: u64)
        ensures { self.new ≡ standing now timeout self.old }
    {
        self.rows = standing(self.rows.as_slice(), now, timeout);
    }
}
