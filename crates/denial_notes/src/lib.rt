//! Which denials a driver that serves says at once, and how often the same one came since.
//!
//! A denial is said when it first comes. For ten seconds then the same one is counted, its count is said, and it is counted on; one
//! that did not come again is forgotten. The table of a principal takes no memory, so that no principal keeps the denials of another one from being said.
//! Contracts see it as a plain list.
#![tactic(auto)]

mod denial;
mod looks;
mod notes;
mod rule_names;

pub use denial::{Again, Decider, Denial, Worded};
pub use looks::{Fresh, Mark};
pub use notes::{Note, Notes, Repeated};
pub use rule_names::RuleNames;
