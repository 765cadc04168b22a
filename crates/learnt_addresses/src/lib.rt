//! The addresses to which the datagrams of one log go, where these are learnt from the status messages that come.
//!
//! The table is plain data for contracts: the addresses in the order in which they were learnt, each with the greatest moment
//! at which a status message came from it. It is kept beside the log, in place, and takes no memory.
#![tactic(auto)]

mod laws;
mod learning;
mod learnt_address;
mod learnt_addresses;

pub use laws::learnt_addresses_are_orderly;
pub use learning::Learning;
pub use learnt_address::LearntAddress;
pub use learnt_addresses::LearntAddresses;
