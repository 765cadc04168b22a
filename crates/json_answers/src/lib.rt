//! Answers to questions about policies, as JSON on one line.
//!
//! Each answer is an object, whose members stand in the order of their names. `docs/POLICY.md` has them all.
#![tactic(auto)]

mod answers;
mod line;
mod rows;

pub use answers::{
    checked, decided, differing, explained, linted, passed_over, shown, tabled, taken, tested,
};
pub use rows::{Change, Failed, Finding, Grant, Miss, Rule, Taken};
