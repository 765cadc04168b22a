ghost use Rattle.receiver_reports.specs.Reports.{greatest_of, is_other, least_of, none, noted};
ghost use Rattle.std.specs.Prelude.{◌≡◌, ◌≤◌, filter, length};

use crate::report::Report;
use arrayvec::ArrayVec;
use channel_uri::Address;
use std::marker::Model;

/// What the receivers of a log reported, 32 at most, in the order in which they were heard last.
#[derive(Debug, Drop)]
pub struct Reports {
    rows: ArrayVec<Report, 32>,
}

impl Model for Reports {
    ghost use Rattle.receiver_reports.specs.declared.report.Report.{Report as Row};
    ghost use Rattle.std.specs.Prelude.{List};

    ghost Value = { List Row };

    ghost view = { λ reports. reports.rows.items };
}

/// The greatest of a position and those that were reported from that address.
fn greatest_of(rows: &[Report], from: &Address, first: u64) -> u64
    ensures { result ≡ greatest_of from.now first rows.now }
{
    let mut greatest = first;
    for row in rows {
        greatest = row.greater(from, greatest);
    }
    greatest
}

/// All of these but that address.
#[tactic(auto, using(crate::proofs::RoomLemmas::room_left))]
fn without(rows: &[Report], from: &Address) -> ArrayVec<Report, 32>
    requires { length rows.now ≤ 32 }
    ensures { result.items ≡ filter (is_other from.now) rows.now }
{
    let mut others = ArrayVec::new();
    for row in rows {
        if row.from != *from {
            others.push(*row);
        }
    }
    others
}

impl Reports {
    /// Nothing was reported yet. It takes no memory.
    pub fn new() -> Reports
        ensures { result ≡ none }
    {
        Reports {
            rows: ArrayVec::new(),
        }
    }

    /// What was reported, by those that were heard last at the end.
    pub fn rows(&self) -> &[Report]
        ensures { result.now ≡ self.now }
    {
        self.rows.as_slice()
    }

    /// A receiver at that address reported at the moment `now`, in nanoseconds, that it has taken the stream up to a position.
    /// The greatest position that it reported counts. Where 32 others are there, the one that was heard longest ago makes room.
    #[tactic(auto, unfolding(crate::specs::Reports::noted))]
    pub fn note(&mut self, now: u64, from: &Address, position: u64)
        ensures { self.new ≡ noted now from.now position self.old }
    {
        let greatest = greatest_of(self.rows.as_slice(), from, position);
        let mut others = without(self.rows.as_slice(), from);
        if others.is_full() {
            others.remove(0);
        }
        others.push(Report {
            from: *from,
            position: greatest,
            heard: now,
        });
        self.rows = others;
    }

    /// Up to which position each receiver has taken the stream that was heard not longer ago than `timeout`; `None` where there
    /// is none. Moments are in nanoseconds.
    pub fn least(&self, now: u64, timeout: u64) -> Option<u64>
        ensures { result ≡ least_of now timeout self.now }
    {
        let mut least = None;
        for row in self.rows.as_slice() {
            least = row.lesser(now, timeout, least);
        }
        least
    }
}
