//! The clients of a driver: who is attached, for whom each acts, and when each was last heard of.
//!
//! The list is plain data for contracts (`ClientList`): the clients in the order in which they came, and the id that was
//! given last. Ids begin at 1, only rise, and are never used again.
#![tactic(auto)]

mod client;
mod clients;
mod error;
mod laws;

pub use client::Client;
pub use clients::Clients;
pub use error::AdmitError;
pub use laws::{clients_are_found_by_their_ids, ids_are_never_given_again};
