//! What is wrong with a policy's text, and what is likely not meant by it.
//!
//! `lint` gives a report: the faults of a text that is no policy, each with its place; and of one that is, the warnings:
//! rules that never decide, acts that no request has there, keys and values that no channel has, and the like.
#![tactic(auto)]

mod acts;
mod asking;
mod ending;
mod examples;
mod gaps;
mod hiding;
mod keys;
mod lasting;
mod notes;
mod pairs;
mod report;
mod unmet;
mod warning;
mod warnings;

pub use ending::{Ended, Ends};
pub use hiding::{Hidden, hidden_in, hidden_rules_never_decide};
pub use notes::Note;
pub use policy_faults::{Cause, Fault, Place};
pub use report::{Report, lint};
pub use unmet::{Lack, Unmet};
pub use warning::{Doubt, Gap, Warning};
