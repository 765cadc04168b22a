//! What datagrams go over: a network in memory, or the sockets of the system.
//!
//! [`Wire`] is what the agents of a driver send and read by. Contracts see what happened to a wire as a list of events, one
//! for each call ([`Wire`]: `went`): a datagram was sent or read, nothing was there to read, or the call failed. How often it
//! failed is a number of that list, without a last value. [`Network`] ties each such list to the datagrams that are on their
//! way, [`Udp`] each call to one call of a socket, of which nothing else is known, and [`Shared`] each event to a call of a wire
//! in one hold of a lock.
#![tactic(auto)]

mod bell;
mod doors;
mod faulty;
mod laws;
mod letter;
mod network;
mod shared;
mod socket;
mod udp;
mod wire;

pub use bell::Bell;
pub use faulty::Faulty;
pub use laws::{failures_lead_nowhere, letters_arrive_in_order, letters_were_sent};
pub use letter::Letter;
pub use network::{Fate, Network};
pub use shared::Shared;
pub use udp::Udp;
pub use wire::{Wire, WireFault};

/// How long a datagram is at most that a wire takes.
pub const LONGEST: usize = 65507;
