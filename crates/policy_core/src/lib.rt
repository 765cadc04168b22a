//! Policies: who may do what on which channel and stream, by the first rule that matches.
//!
//! A policy is a list of rules and a default. `Policy::verdict` decides a request: the first rule that matches it gives
//! its word, and where none does the default stands. The verdict names the rule, or the default, and the policy.
#![tactic(auto)]

mod act;
mod acts;
mod decision;
mod policy;
mod request;
mod rule;
mod verdict;

pub use act::Act;
pub use acts::Acts;
pub use decision::Decision;
pub use policy::{
    Policy, Standing, ever_is_now_or_later, least_rule_decides, policies_change_at_bounds,
};
pub use request::Request;
pub use rule::{Principals, Rule};
pub use verdict::Verdict;
