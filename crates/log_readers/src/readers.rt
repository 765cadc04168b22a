ghost use Rattle.log_readers.specs.Readers.{all_readers, noted, noted_at, readers_at};
ghost use Rattle.std.specs.List.{sum_by};
ghost use Rattle.std.specs.Prelude.{◌≡◌, ◌<◌, ◌≤◌, ◌*◌, ℕ, List, [], All, IfOk, filter, if◌then◌else◌, length, map, take};
ghost use Rattle.client_registry.specs.declared.client.Client.{Client};
ghost use Rattle.policy_core.specs.RuleList.{Rules};
ghost use Rattle.stream_registry.specs.Pairs.{is_allowed, pairs_of};
ghost use Rattle.stream_registry.specs.Streams.{Streams as StreamLists};
ghost use Rattle.stream_registry.specs.Wish.{row_of};

use client_registry::Clients;
use policy_core::Standing;
use rows::{Rows, Test};
use std::alloc::{AllocError, Global};
use std::marker::Model;
use stream_registry::{LogRow, Streams, Subscription, Wish, fits, is_allowed};

/// How many logs there are at most: 256 publications and 512 images.
const LOGS: usize = 768;

/// The numbers of the subscriptions that read each log, log by log. There is room from the beginning for as many as there
/// may be.
#[derive(Debug, Drop)]
pub struct Readers {
    pub(crate) slots: Vec<Rows<u64, 512>>,
    /// How many of the slots are those of logs.
    pub(crate) used: usize,
}

impl Model for Readers {
    ghost use Rattle.std.specs.Prelude.{◌≡◌, ◌≤◌, ℕ, List, length, take};

    ghost Value = { List (List ℕ) };

    ghost view = { λ readers. take readers.used readers.slots.items };

    ghost invariant = { λ readers. (readers.used ≤ 768) × (length readers.slots.items ≡ 768) };
}

/// Room for the readers of all logs that there may be.
fn room(alloc: Global) -> Result<Vec<Rows<u64, 512>>, AllocError>
    ensures { IfOk result (λ slots. length slots.items ≡ 768) }
{
    let mut slots = Vec::with_capacity(alloc, LOGS)?;
    for _slot in 0..LOGS {
        slots.push(Rows::new(alloc)?)?;
    }
    Ok(slots)
}

/// Takes all numbers away.
fn empty_all(slots: &mut [Rows<u64, 512>])
    ensures { slots.new ≡ map (λ numbers. []) slots.old }
{
    for numbers in slots.iter_mut() {
        numbers.clear();
    }
}

/// Takes all numbers away from so many slots; there may be further ones.
fn empty_used(slots: &mut Vec<Rows<u64, 512>>, logs: usize)
    requires { logs ≤ length slots.old.items }
    ensures slots { length slots.new.items ≡ length slots.old.items }
    ensures emptied { take logs slots.new.items ≡ map (λ numbers. []) (take logs slots.old.items) }
{
    let (used, _) = slots.as_mut_slice().split_at_mut(logs);
    empty_all(used);
}

/// Puts the subscription's number after those of the log, where it fits.
fn note_at(numbers: &mut Rows<u64, 512>, log: &LogRow, wish: &Wish<'_>)
    requires { length numbers.old < 512 }
    ensures { numbers.new ≡ noted_at (row_of wish.now) log.now numbers.old }
{
    if fits(log, wish) {
        numbers.push(wish.number);
    }
}

/// Puts the subscription's number after those of the logs that it fits.
fn note_all(slots: &mut [Rows<u64, 512>], logs: &[LogRow], wish: &Wish<'_>)
    requires same { length slots.old ≡ length logs.now }
    requires room { All (λ numbers. length numbers < 512) slots.old }
    ensures { slots.new ≡ noted (row_of wish.now) logs.now slots.old }
{
    for at in 0..logs.len() {
        note_at(&mut slots[at], &logs[at], wish);
    }
}

/// Puts the subscription's number after those of the logs that it fits; there may be further slots.
fn note_used(slots: &mut Vec<Rows<u64, 512>>, logs: &[LogRow], wish: &Wish<'_>)
    requires slots { length logs.now ≤ length slots.old.items }
    requires room { All (λ numbers. length numbers < 512) (take (length logs.now) slots.old.items) }
    ensures slots { length slots.new.items ≡ length slots.old.items }
    ensures noted { take (length logs.now) slots.new.items ≡ noted (row_of wish.now) logs.now (take (length logs.now) slots.old.items) }
{
    let (used, _) = slots.as_mut_slice().split_at_mut(logs.len());
    note_all(used, logs, wish);
}

/// Takes away the numbers that fail the test.
fn keep_all<S: Test<u64>>(slots: &mut [Rows<u64, 512>], test: &S)
    ensures { slots.new ≡ map (filter (S.keeps test.now)) slots.old }
{
    for numbers in slots.iter_mut() {
        numbers.retain(test);
    }
}

/// Takes away the numbers that fail the test from so many slots; there may be further ones.
fn keep_used<S: Test<u64>>(slots: &mut Vec<Rows<u64, 512>>, logs: usize, test: &S)
    requires { logs ≤ length slots.old.items }
    ensures slots { length slots.new.items ≡ length slots.old.items }
    ensures kept { take logs slots.new.items ≡ map (filter (S.keeps test.now)) (take logs slots.old.items) }
{
    let (used, _) = slots.as_mut_slice().split_at_mut(logs);
    keep_all(used, test);
}

/// Other numbers, equal to these.
fn row_copied(alloc: Global, numbers: &Rows<u64, 512>) -> Result<Rows<u64, 512>, AllocError>
    ensures { IfOk result (λ row. row ≡ numbers.now) }
{
    let mut row = Rows::new(alloc)?;
    for number in numbers.as_slice() {
        row.push(*number);
    }
    Ok(row)
}

/// Other slots, equal to these.
fn copied(alloc: Global, slots: &[Rows<u64, 512>]) -> Result<Vec<Rows<u64, 512>>, AllocError>
    ensures { IfOk result (λ copy. copy.items ≡ slots.now) }
{
    let mut copy = Vec::with_capacity(alloc, slots.len())?;
    for numbers in slots {
        copy.push(row_copied(alloc, numbers)?)?;
    }
    Ok(copy)
}

impl Readers {
    /// The readers of no logs, and room for those of all that there may be.
    pub fn new(alloc: Global) -> Result<Readers, AllocError>
        ensures { IfOk result (λ readers. readers ≡ []) }
    {
        Ok(Readers {
            slots: room(alloc)?,
            used: 0,
        })
    }

    /// Other readers, equal to these.
    pub fn copy(&self, alloc: Global) -> Result<Readers, AllocError>
        ensures { IfOk result (λ readers. readers ≡ self.now) }
    {
        Ok(Readers {
            slots: copied(alloc, self.slots.as_slice())?,
            used: self.used,
        })
    }

    /// How many readers there are of all logs together: as many as there are pairs.
    pub fn total(&self) -> usize
        ensures exact { result ≡ sum_by (λ numbers. length numbers) self.now }
        ensures few { result ≤ 393216 }
        ensures pairs { (s : StreamLists) (clients : List Client) (policy : Rules) (epoch : ℕ) → self.now ≡ all_readers s clients policy epoch → result ≡ length (pairs_of s clients policy epoch) }
    {
        total_of(&self.slots[..self.used])
    }

    /// The logs have no readers.
    fn empty(&mut self, logs: &[LogRow])
        requires { length logs.now ≤ 768 }
        ensures { self.new ≡ map (λ log. []) logs.now }
    {
        self.used = logs.len();
        empty_used(&mut self.slots, self.used);
    }

    /// The numbers go that fail the test.
    pub(crate) fn keep<S: Test<u64>>(&mut self, test: &S)
        ensures { self.new ≡ map (filter (S.keeps test.now)) self.old }
    {
        keep_used(&mut self.slots, self.used, test);
    }

    /// The subscription reads the logs that it fits, if the policy lets it.
    pub(crate) fn note(
        &mut self,
        clients: &Clients,
        policy: &Standing<'_>,
        epoch: u64,
        logs: &[LogRow],
        wish: &Wish<'_>,
    )
        requires same { length self.old ≡ length logs.now }
        requires room { All (λ numbers. length numbers < 512) self.old }
        ensures { self.new ≡ (if is_allowed clients.now.rows policy.now epoch (row_of wish.now) then noted (row_of wish.now) logs.now self.old else self.old) }
    {
        if is_allowed(clients, policy, epoch, wish) {
            note_used(&mut self.slots, logs, wish);
        }
    }

    /// Asks which of these subscriptions read which of these logs.
    fn ask(
        &mut self,
        clients: &Clients,
        policy: &Standing<'_>,
        epoch: u64,
        logs: &[LogRow],
        subscriptions: &[Subscription],
    )
        requires few_logs { length logs.now ≤ 768 }
        requires few { length subscriptions.now ≤ 512 }
        ensures { self.new ≡ map (readers_at clients.now.rows policy.now epoch subscriptions.now) logs.now }
    {
        self.empty(logs);
        for subscription in subscriptions {
            self.note(clients, policy, epoch, logs, &subscription.wish());
        }
    }

    /// The readers of all logs, from the beginning. The policy, which goes by the number `epoch`, is asked once for each
    /// subscription.
    #[tactic(auto, unfolding(crate::specs::Readers::all_readers))]
    pub fn ask_again(
        &mut self,
        streams: &Streams,
        clients: &Clients,
        policy: &Standing<'_>,
        epoch: u64,
    )
        ensures { self.new ≡ all_readers streams.now clients.now.rows policy.now epoch }
    {
        self.ask(
            clients,
            policy,
            epoch,
            streams.sources(),
            streams.subscriptions(),
        );
    }
}

/// How many numbers there are.
fn total_of(slots: &[Rows<u64, 512>]) -> usize
    requires { length slots.now ≤ 768 }
    ensures exact { result ≡ sum_by (λ numbers. length numbers) slots.now }
    ensures few { result ≤ 512 * length slots.now }
{
    let mut total = 0;
    for numbers in slots {
        total += numbers.len();
    }
    total
}
