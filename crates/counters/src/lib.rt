//! The counters of clients: numbers with a label that others may see where the policy shows them.
//!
//! The list is plain data for contracts: the counters in the order of their registration numbers, which are drawn by
//! whoever keeps the list. Which of them a principal sees is decided by the policy, counter by counter.
#![tactic(auto)]

mod counter;
mod counters;
mod fault;
mod laws;

pub use counter::Counter;
pub use counters::Counters;
pub use fault::CounterFault;
pub use laws::any_number_shows_the_same;
