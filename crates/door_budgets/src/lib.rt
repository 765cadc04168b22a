//! How much of the processors the clients of each door take, and for how long they rest for it.
//!
//! While others have work, a door has an equal part of half of the processors: what its clients take is due to that part, and what
//! is due beyond ten milliseconds they rest for. Moments and times are in nanoseconds of one clock.
#![tactic(auto)]

mod budget;
mod taken;

pub use budget::Budget;
pub use taken::{Taken, who_rests_keeps_to_its_part};
