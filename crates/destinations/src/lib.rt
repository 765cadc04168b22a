//! The destinations of publications: to which addresses the datagrams of a log go, and who named each.
//!
//! The table is plain data for contracts (`DestinationList`): the destinations in the order in which they were named, and
//! the number that was given last. Numbers are a sequence of their own that begins at 1 and only rises.
#![tactic(auto)]

mod destination;
mod destinations;
mod fault;
mod laws;

pub use destination::Destination;
pub use destinations::Destinations;
pub use fault::DestinationFault;
pub use laws::{destinations_are_orderly, room_is_for_every_source};
