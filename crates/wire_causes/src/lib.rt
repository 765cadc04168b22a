//! Why messages do not reach a subscriber, as far as one side can know it: what the policy denies on the wire, what comes that is
//! for nobody, and what the system does not send. Each is a row of a driver's tallies, and a line.
#![tactic(auto)]

mod cause;

pub use cause::{Cause, Side};
