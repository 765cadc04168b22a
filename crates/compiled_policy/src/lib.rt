//! A policy made ready for many requests: what it decides, without a look at each of its rules.
//!
//! [`Compiled`] is a policy, its number, and an index of its rules. The index has sets of rules, a bit for each rule: for
//! each class, an act over a medium; for each group, of everybody or of principals; and for each interval of streams. An
//! interval starts wherever the range of a rule starts or ends, so a range holds all of it or nothing. A verdict looks at
//! the rules that the sets of its request have in common, in their order, and at no other.
#![tactic(auto)]

mod bits;
mod candidates;
mod class;
mod compiled;
mod group;
mod index;
mod line;
mod room;
mod rule_set;

pub use compiled::Compiled;
