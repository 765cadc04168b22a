//! A driver that runs: its three agents on threads of their own, and the clients that attach to it.
//!
//! [`Parts::make`] takes the memory of a driver, and [`Driver::start`] its threads. [`Driver::client`] attaches a client,
//! whose owner its caller names. Each call of a [`Client`] is one push of a command, one look at the registry, or one hold
//! of one log.
#![tactic(auto)]

mod asking;
mod attaching;
mod auditing;
mod client;
mod clock;
mod commands;
mod driver;
mod eliciting;
mod faults;
mod hints;
mod looking;
mod mail;
mod offering;
mod pacing;
mod parts;
mod polling;
mod positions;
mod preparing;
mod reloading;
mod remembering;
mod seat;
mod seats;
mod starting;
mod stopping;
mod threads;
mod works;

pub use audit_ring::AuditOf;
pub use auditing::Audited;
pub use client::Client;
pub use clock::{MachineClock, MachineTime};
pub use driver::Driver;
pub use faults::{
    AttachFault, ClockFault, LookFault, MakeFault, OfferFault, PollFault, PositionFault, PushFault,
    ReloadFault, StartFault,
};
pub use log_slots::PublicationPositions;
pub use media_agents::{
    Agent, Backoff, Bells, ClientReply, Clock, Dated, DriverNaming, ElicitFault, Elicitation, Gate,
    Mail, Miss, Repairs, Stamp, Tallies, Tally, Turn,
};
pub use offering::Messages;
pub use parts::Parts;
pub use positions::ImagePositions;
