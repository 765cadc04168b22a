//! What the clients of a principal have.

ghost use Rattle.service_bounds.specs.Changes.{answered_rows, is_awaited, left, refused_rows};
ghost use Rattle.service_bounds.specs.Counts.{IsAdded, IsWithin, held, one_counter, one_publication, one_subscription, own_rows};
ghost use Rattle.service_bounds.specs.Flights.{IsSent, answered, is_other_turn, is_others};
ghost use Rattle.service_bounds.specs.Held.{KeepsWithin, bounds_of, flights_of, rows_of};
ghost use Rattle.std.specs.Prelude.{◌≡◌, [], filter, map};

use crate::bounds::{Bound, Bounds};
use crate::changes;
use crate::counts::{counts_among, passed_with};
use crate::flights::{self, Flight};
use crate::outcome::Outcome;
use crate::row::Row;
use std::alloc::Global;

/// What the clients of a principal have and asked for, and how much that may be.
#[derive(Drop)]
pub struct Holdings {
    bounds: Bounds,
    rows: Vec<Row>,
    /// The commands that are not answered.
    flights: Vec<Flight>,
}

/// One more row comes, where all is within bounds with it.
fn add_row(bounds: Bounds, rows: &mut Vec<Row>, now: u64, row: Row) -> Result<(), Option<Bound>>
    ensures { IsAdded bounds now rows.old.items row rows.new.items result }
{
    changes::let_go(rows, now);
    if let Some(bound) = passed_with(bounds, rows.as_slice(), row.kind) {
        return Err(Some(bound));
    }
    match rows.push(row) {
        Ok(()) => Ok(()),
        Err(_) => Err(None),
    }
}

impl Holdings {
    /// They have nothing.
    pub fn new(alloc: Global, bounds: Bounds) -> Holdings
        ensures bounds { bounds_of result ≡ bounds }
        ensures rows { rows_of result ≡ [] }
        ensures flights { flights_of result ≡ [] }
        ensures within { IsWithin bounds (rows_of result) }
    {
        Holdings {
            bounds,
            rows: Vec::new(alloc),
            flights: Vec::new(alloc),
        }
    }

    /// How many publications, subscriptions and counters a client has, without those that were removed.
    pub fn counts_of(&self, client: u64) -> (u64, u64, u64)
        ensures { result ≡ (held one_publication (own_rows client (rows_of self.now)), held one_subscription (own_rows client (rows_of self.now)), held one_counter (own_rows client (rows_of self.now))) }
    {
        counts_among(self.rows.as_slice(), client)
    }

    /// A command goes, where fewer than may be are not answered. `now` is in nanoseconds.
    ///
    /// # Errors
    /// `Commands`, or `None` where there is no memory. Then it does not go.
    pub fn send(&mut self, now: u64, flight: Flight) -> Result<(), Option<Bound>>
        ensures sent { IsSent (bounds_of self.old).commands now flight (flights_of self.old) (flights_of self.new) result }
        ensures bounds { bounds_of self.new ≡ bounds_of self.old }
        ensures rows { rows_of self.new ≡ rows_of self.old }
    {
        flights::send(&mut self.flights, self.bounds.commands, now, flight)
    }

    /// What a client sent at that turn did not go.
    pub fn take_back(&mut self, client: u64, turn: u64)
        ensures flights { flights_of self.new ≡ filter (is_other_turn client turn) (flights_of self.old) }
        ensures bounds { bounds_of self.new ≡ bounds_of self.old }
        ensures rows { rows_of self.new ≡ rows_of self.old }
    {
        flights::take_back(&mut self.flights, client, turn);
    }

    /// One more comes, where all is within bounds with it. What has lingered until `now`, in nanoseconds, counts no more.
    ///
    /// # Errors
    /// Which bound it would pass; `None` where there is no memory. Then it does not come.
    pub fn add(&mut self, now: u64, row: Row) -> Result<(), Option<Bound>>
        ensures added { IsAdded (bounds_of self.old) now (rows_of self.old) row (rows_of self.new) result }
        ensures bounds { bounds_of self.new ≡ bounds_of self.old }
        ensures flights { flights_of self.new ≡ flights_of self.old }
        ensures within { KeepsWithin self.old self.new }
    {
        add_row(self.bounds, &mut self.rows, now, row)
    }

    /// What that command asked for does not come.
    pub fn drop_asked(&mut self, client: u64, correlation: u64)
        ensures rows { rows_of self.new ≡ refused_rows client correlation (rows_of self.old) }
        ensures bounds { bounds_of self.new ≡ bounds_of self.old }
        ensures flights { flights_of self.new ≡ flights_of self.old }
        ensures within { KeepsWithin self.old self.new }
    {
        changes::take_back(&mut self.rows, client, correlation);
    }

    /// Whether a command of that client with that correlation id, which adds or removes something, is not answered.
    pub fn awaits(&self, client: u64, correlation: u64) -> bool
        ensures { result ≡ is_awaited client correlation (rows_of self.now) (flights_of self.now) }
    {
        changes::is_asked(self.rows.as_slice(), client, correlation)
            || flights::is_removing(self.flights.as_slice(), client, correlation)
    }

    /// What the answer to a command makes of what it asked for.
    fn settle(&mut self, now: u64, client: u64, correlation: u64, outcome: Outcome)
        ensures rows { rows_of self.new ≡ answered_rows now client correlation outcome (flights_of self.old) (rows_of self.old) }
        ensures bounds { bounds_of self.new ≡ bounds_of self.old }
        ensures flights { flights_of self.new ≡ flights_of self.old }
    {
        let removal = flights::removal_of(self.flights.as_slice(), client, correlation);
        match outcome {
            Outcome::Stands { registration } => {
                changes::register(&mut self.rows, client, correlation, registration);
            }
            Outcome::Done => changes::remove(&mut self.rows, now, client, removal),
            Outcome::Missing => {
                changes::take_back(&mut self.rows, client, correlation);
                changes::remove(&mut self.rows, now, client, removal);
            }
            Outcome::Refused => changes::take_back(&mut self.rows, client, correlation),
        }
    }

    /// The command of that correlation id is answered. What it removed counts for as long as it lingers.
    pub fn answered(&mut self, now: u64, client: u64, correlation: u64, outcome: Outcome)
        ensures rows { rows_of self.new ≡ answered_rows now client correlation outcome (flights_of self.old) (rows_of self.old) }
        ensures flights { flights_of self.new ≡ answered client correlation (flights_of self.old) }
        ensures bounds { bounds_of self.new ≡ bounds_of self.old }
        ensures within { KeepsWithin self.old self.new }
    {
        self.settle(now, client, correlation, outcome);
        flights::answered(&mut self.flights, client, correlation);
    }

    /// The client is gone, and so is all that it has: it counts for as long as it lingers.
    pub fn leave(&mut self, now: u64, client: u64)
        ensures rows { rows_of self.new ≡ map (left now client) (rows_of self.old) }
        ensures flights { flights_of self.new ≡ filter (is_others client) (flights_of self.old) }
        ensures bounds { bounds_of self.new ≡ bounds_of self.old }
        ensures within { KeepsWithin self.old self.new }
    {
        changes::remove_all(&mut self.rows, now, client);
        flights::forget(&mut self.flights, client);
    }
}
