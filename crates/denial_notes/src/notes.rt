ghost use Rattle.denial_notes.specs.Notes.{Table, after_due, blank, counted_in, due_of, has, is_first, noted};
ghost use Rattle.std.specs.Prelude.{◌≡◌, ◌≤◌, length, map};

use crate::denial::Denial;
use arrayvec::ArrayVec;
use policy_core::{Act, Verdict};
use std::marker::Model;

/// For how long the same denial is counted and not said, in nanoseconds.
const PERIOD: u64 = 10_000_000_000;

/// A denial that was said, and how often it came since.
#[derive(Clone, Copy, Debug, PartialEq, Eq)]
pub struct Repeated {
    pub denial: Denial,
    pub times: u64,
}

/// A denial that was said.
#[derive(Clone, Copy, Debug, PartialEq, Eq)]
pub struct Note {
    pub denial: Denial,
    /// When it was said, in nanoseconds of any clock.
    pub said: u64,
    /// How often it came since, up to the greatest number.
    pub since: u64,
}

impl Default for Note {
    /// Room for one.
    fn default() -> Note {
        Note {
            denial: Denial {
                principal: 0,
                act: Act::Publish,
                stream: 0,
                verdict: Verdict {
                    allow: false,
                    rule: None,
                    epoch: 0,
                },
            },
            said: 0,
            since: 0,
        }
    }
}

/// The denials of a principal that were said lately, in the order in which they were, and how many others came once 16 were there.
#[derive(Debug, Drop)]
pub struct Notes {
    rows: ArrayVec<Note, 16>,
    others: u64,
}

impl Model for Notes {
    ghost use Rattle.denial_notes.specs.Notes.{Table};

    ghost Value = { Table };

    ghost view = { λ notes. record { rows = notes.rows.items; others = notes.others } };
}

/// Whether that denial was said lately.
fn has(rows: &[Note], denial: &Denial) -> bool
    ensures { result ≡ has denial.now rows.now }
{
    for row in rows {
        if row.denial.is_like(denial) {
            return true;
        }
    }
    false
}

impl Note {
    /// It came once more, where it is that denial.
    fn counted(&self, denial: &Denial) -> Note
        ensures { result ≡ counted_in denial.now self.now }
    {
        if self.denial.is_like(denial) {
            Note {
                since: self.since.saturating_add(1),
                ..*self
            }
        } else {
            *self
        }
    }
}

/// These, where that denial came once more.
fn counted(rows: &[Note], denial: &Denial) -> ArrayVec<Note, 16>
    requires { length rows.now ≤ 16 }
    ensures { result.items ≡ map (counted_in denial.now) rows.now }
{
    let mut counted = ArrayVec::new();
    for row in rows {
        counted.push(row.counted(denial));
    }
    counted
}

impl Notes {
    /// Nothing was said yet. It takes no memory.
    pub fn new() -> Notes
        ensures { result ≡ blank }
    {
        Notes {
            rows: ArrayVec::new(),
            others: 0,
        }
    }

    /// That is denied now, in nanoseconds. Whether it is to be said: where it was not said in the last ten seconds, and fewer than
    /// 16 others were.
    #[tactic(auto, unfolding(crate::specs::Notes::noted))]
    pub fn note(&mut self, now: u64, denial: &Denial) -> bool
        ensures noted { self.new ≡ noted now denial.now self.old }
        ensures said { result ≡ is_first denial.now self.old }
    {
        if has(self.rows.as_slice(), denial) {
            self.rows = counted(self.rows.as_slice(), denial);
            false
        } else if self.rows.is_full() {
            self.others = self.others.saturating_add(1);
            false
        } else {
            self.rows.push(Note {
                denial: *denial,
                said: now,
                since: 0,
            });
            true
        }
    }

    /// The denial that was said first of those whose ten seconds are over, with how often it came since. It is counted for ten
    /// seconds more then, or is forgotten if it did not come again.
    pub fn next_due(&mut self, now: u64) -> Option<Repeated>
        ensures due { result ≡ due_of now self.old.rows }
        ensures rest { self.new ≡ record self.old { rows = after_due now self.old.rows } }
    {
        let first = self.rows.as_slice().first()?;
        let Note {
            denial,
            said,
            since,
        } = *first;
        if now.saturating_sub(said) < PERIOD {
            return None;
        }
        self.rows.remove(0);
        if since > 0 {
            self.rows.push(Note {
                denial,
                said: now,
                since: 0,
            });
        }
        Some(Repeated {
            denial,
            times: since,
        })
    }

    /// How many denials came that were neither said nor counted with one that was. They are forgotten then.
    pub fn take_others(&mut self) -> u64
        ensures others { result ≡ self.old.others }
        ensures rest { self.new ≡ record self.old { others = 0 } }
    {
        let others = self.others;
        self.others = 0;
        others
    }
}
