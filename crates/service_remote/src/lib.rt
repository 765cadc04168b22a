//! A client of a driver that serves, in another process: what a service publishes and reads over a Unix socket, the counters
//! that its principal may see, and what an operator asks.
#![tactic(auto)]

mod commands;
mod fault;
mod looking;
mod orders;
mod publishing;
mod remote;
mod subscribing;
mod watching;

pub use fault::{RemoteFault, Told};
pub use looking::print_counters;
pub use orders::print_order;
pub use publishing::{Offering, publish};
pub use subscribing::{Wanted, subscribe};
pub use watching::{Watched, watch_decisions};
