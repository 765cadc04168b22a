//! The subscriptions that read a log, in a list whose room is reserved.

ghost use Rattle.std.specs.Prelude.{◌≡◌, ◌++◌, ◌∷◌, [], ◌<◌, ◌≤◌, IfOk, length, map, filter, vec_capacity, vec_len};
ghost use Rattle.std.specs.List.{fold};
ghost use Rattle.log_pairs.specs.Pairs.{is_other, least_of, least_or, lesser, moved_one, position_of, reads_on, rejoined_one, rejoined_pairs};

use crate::pair::Pair;
use std::alloc::{AllocError, Global};
use std::marker::Model;
use std::mem::swap;

/// How many pairs a log has at most.
const PAIRS: usize = 512;

/// The pairs of a log, in the order in which they came. There is room for 512.
#[derive(Debug, Drop)]
pub struct Pairs {
    rows: Vec<Pair>,
    /// Room for as many, in which the next rows are written; what stands there does not matter.
    spare: Vec<Pair>,
}

impl Model for Pairs {
    ghost use Rattle.std.specs.Prelude.{◌≤◌, List, vec_capacity};
    ghost use Rattle.log_pairs.specs.declared.pair.Pair.{Pair};

    ghost Value = { List Pair };

    ghost view = { λ pairs. pairs.rows.items };

    ghost invariant = { λ pairs. (512 ≤ vec_capacity pairs.rows) × (512 ≤ vec_capacity pairs.spare) };
}

/// The pair of this subscription is at that position now; another one stays.
fn moved_one(pair: Pair, subscription: u64, position: u64) -> Pair
    ensures { result ≡ moved_one subscription position pair }
{
    if pair.subscription == subscription {
        Pair { position, ..pair }
    } else {
        pair
    }
}

/// Moves the pair of a subscription.
fn move_one(rows: &mut [Pair], subscription: u64, position: u64)
    ensures { rows.new ≡ map (moved_one subscription position) rows.old }
{
    for pair in rows.iter_mut() {
        *pair = moved_one(*pair, subscription, position);
    }
}

/// Takes the pair of a subscription away.
fn take_away(rows: &mut Vec<Pair>, subscription: u64)
    ensures rows { rows.new.items ≡ filter (is_other subscription) rows.old.items }
    ensures room { vec_capacity rows.new ≡ vec_capacity rows.old }
{
    rows.retain(|pair| pair.subscription != subscription);
}

/// How far a subscription has read, by the pairs.
fn position_in(rows: &[Pair], subscription: u64) -> Option<u64>
    ensures { result ≡ position_of rows.now subscription }
{
    for pair in rows {
        if pair.subscription == subscription {
            return Some(pair.position);
        }
    }
    None
}

/// The pair of a subscription that reads from now on: one that was there from where it is, a new one from `join` on.
fn rejoined_one(rows: &[Pair], subscription: u64, join: u64) -> Pair
    ensures { result ≡ rejoined_one join rows.now subscription }
{
    let position = match position_in(rows, subscription) {
        Some(position) => position,
        None => join,
    };
    Pair {
        subscription,
        position,
    }
}

/// Writes the pairs of exactly these subscriptions, in place of what stands there. It takes no memory.
fn write_rejoined(spare: &mut Vec<Pair>, rows: &[Pair], subscriptions: &[u64], join: u64)
    requires { length subscriptions.now ≤ vec_capacity spare.old }
    ensures rows { spare.new.items ≡ rejoined_pairs join rows.now subscriptions.now }
    ensures room { vec_capacity spare.new ≡ vec_capacity spare.old }
{
    spare.clear();
    for subscription in subscriptions {
        spare.push_reserved(rejoined_one(rows, *subscription, join));
    }
}

impl Pairs {
    /// No pairs yet.
    pub fn new(alloc: Global) -> Result<Pairs, AllocError>
        ensures { IfOk result (λ pairs. pairs ≡ []) }
    {
        let rows = Vec::with_capacity(alloc, PAIRS)?;
        let spare = Vec::with_capacity(alloc, PAIRS)?;
        Ok(Pairs { rows, spare })
    }

    /// Adds a pair. It takes no memory.
    pub fn join(&mut self, pair: Pair)
        requires { length self.old < 512 }
        ensures { self.new ≡ self.old ++ pair ∷ [] }
    {
        match self.rows.push(pair) {
            Ok(()) => {}
            Err(_) => unreachable!(),
        }
    }

    /// Takes the pair of a subscription away.
    pub fn leave(&mut self, subscription: u64)
        ensures { self.new ≡ filter (is_other subscription) self.old }
    {
        take_away(&mut self.rows, subscription);
    }

    /// Moves the pair of a subscription.
    pub fn advance(&mut self, subscription: u64, position: u64)
        ensures { self.new ≡ map (moved_one subscription position) self.old }
    {
        move_one(self.rows.as_mut_slice(), subscription, position);
    }

    /// Exactly these subscriptions read from now on: one that was there from where it is, a new one from `join` on. It takes
    /// no memory.
    pub fn rejoin(&mut self, subscriptions: &[u64], join: u64)
        requires { length subscriptions.now ≤ 512 }
        ensures { self.new ≡ rejoined_pairs join self.old subscriptions.now }
    {
        write_rejoined(&mut self.spare, self.rows.as_slice(), subscriptions, join);
        swap(&mut self.rows, &mut self.spare);
    }

    /// How far a subscription has read.
    pub fn position(&self, subscription: u64) -> Option<u64>
        ensures { result ≡ position_of self.now subscription }
    {
        position_in(self.rows.as_slice(), subscription)
    }

    /// The least of a position and those of all pairs.
    pub fn least(&self, first: u64) -> u64
        ensures { result ≡ least_of first self.now }
    {
        let mut least = first;
        for pair in &self.rows {
            least = least.min(pair.position);
        }
        least
    }

    /// The least position of a pair; without one, `none`.
    pub fn least_or(&self, none: u64) -> u64
        ensures { result ≡ least_or none self.now }
    {
        match self.rows.as_slice() {
            [] => none,
            [first, ..] => self.least(first.position),
        }
    }

    /// The pairs, in the order in which they came.
    pub fn as_slice(&self) -> &[Pair]
        ensures { result.now ≡ self.now }
    {
        self.rows.as_slice()
    }
}
