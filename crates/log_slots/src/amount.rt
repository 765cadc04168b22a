ghost use Rattle.log_slots.specs.Counting.{AmountState, IsFull, IsPassed};
ghost use Rattle.std.specs.Prelude.{◌≡◌, ◌+◌, ◌*◌, ◌<◌, ◌≤◌, ◌^◌, ℕ, MatchOption};

use crate::naming::{Naming, OfMessages};
use std::marker::{Model, PhantomData};
use std::sync::ledger::{Blank, Share, Total};

/// How many messages of the logs of one slot are counted at most: 2^55. At ten million a second that is a hundred years.
pub const ROOM: u64 = 1 << 55;

/// That no more messages are counted, for they are as many as can be: of the slot, or of the client. A message that was not
/// counted alone says so.
#[derive(Drop)]
pub struct AtEnd<N: Naming> {
    of: PhantomData<N>,
}

/// An amount of the ledger of messages. A slot has what its logs may still take, and a client what they took of it: a message
/// that is taken goes from the one to the other, with no lock but that of its log. No more is ever made.
///
/// Contracts see its number, and how many parts of the ledger it has.
#[derive(Drop)]
pub struct Amount<N: Naming> {
    number: u64,
    share: Share<OfMessages<N>>,
}

impl<N: Naming> Model for Amount<N> {
    ghost use Rattle.log_slots.specs.Counting.{AmountState};
    ghost use Rattle.std.specs.Prelude.{◌≡◌};

    ghost Value = { AmountState };

    ghost view = { λ amount. record { parts = amount.share.parts; number = amount.number } };

    ghost invariant = { λ amount. amount.share.amount ≡ amount.number };
}

impl<N: Naming> Amount<N> {
    /// The whole ledger of a driver with so many slots, and what says that no more is ever made.
    pub fn open(blank: Blank, slots: u32) -> (Total<OfMessages<N>>, Amount<N>)
        requires name { (blank.name ≡ N.ledger) × (blank.parts ≡ N.parts) }
        requires parts { 0 < N.parts }
        requires few { slots ≤ 256 }
        ensures total { (result.0.amount ≡ slots * 2 ^ 55) × (result.0.parts ≡ N.parts) }
        ensures whole { result.1 ≡ record { parts = N.parts; number = slots * 2 ^ 55 } }
    {
        let (mut book, mut share) = blank.open::<OfMessages<N>>();
        let number = slots as u64 * ROOM;
        book.add(&mut share, number);
        (book.close(), Amount { number, share })
    }

    /// Its number.
    pub fn number(&self) -> u64
        ensures { result ≡ self.now.number }
    {
        self.number
    }

    /// A part with that number leaves it.
    pub fn split(&mut self, number: u64) -> Amount<N>
        requires parts { 1 < self.old.parts }
        requires enough { number ≤ self.old.number }
        ensures part { result ≡ record { parts = 1; number = number } }
        ensures parts { self.new.parts + 1 ≡ self.old.parts }
        ensures left { self.new.number + number ≡ self.old.number }
    {
        let share = self.share.split_off(1, number);
        self.number -= number;
        Amount { number, share }
    }

    /// One with no part.
    pub(crate) fn empty(&mut self) -> Amount<N>
        ensures none { result ≡ record { parts = 0; number = 0 } }
        ensures same { self.new ≡ self.old }
    {
        Amount {
            number: 0,
            share: self.share.empty(),
        }
    }

    /// Another one joins it.
    pub fn merge(&mut self, other: Amount<N>, total: &Total<OfMessages<N>>)
        requires { total.now.amount < 2 ^ 64 }
        ensures sum { self.new ≡ record { parts = self.old.parts + other.parts; number = self.old.number + other.number } }
        ensures parts { self.new.parts ≤ N.parts }
    {
        let Amount { number, share } = other;
        self.share.merge(share);
        total.audit(&mut self.share);
        self.number += number;
    }

    /// With all parts of the ledger it has all that was made.
    pub fn audit(&mut self, total: &Total<OfMessages<N>>)
        requires { self.old.parts ≡ total.now.parts }
        ensures whole { self.old.number ≡ total.now.amount }
        ensures same { self.new ≡ self.old }
    {
        total.audit(&mut self.share);
    }

    /// One message goes from a slot's amount to a client's, unless the slot has none left, or the client's number is at its
    /// greatest value.
    pub(crate) fn pass_one(&mut self, to: &mut Amount<N>) -> Option<AtEnd<N>>
        requires parts { (0 < self.old.parts) × (0 < to.old.parts) }
        ensures { MatchOption result (IsPassed self.old self.new to.old to.new) (λ end. (to.new ≡ to.old) × (self.new ≡ self.old) × IsFull to.old.number self.old.number) }
    {
        if self.number == 0 || to.number == u64::MAX {
            return Some(AtEnd { of: PhantomData });
        }
        self.share.transfer(&mut to.share, 1);
        self.number -= 1;
        to.number += 1;
        None
    }
}
