//! What was dropped, lost or kept back, and how often.
//!
//! The table has a row for each cause, verdict and address that came, in the order in which they came first, and one number for
//! those that found no room. It takes no memory. Contracts see it as a plain list.
#![tactic(auto)]

mod miss;
mod repairs;
mod tallies;
mod tally;

pub use miss::Miss;
pub use repairs::Repairs;
pub use tallies::Tallies;
pub use tally::Tally;
