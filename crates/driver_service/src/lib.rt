//! What a driver does for a client that is in another process: a connection answers each request by calls of its client.
//!
//! A [`Seat`] is a client as a connection uses it. [`Connection::answer`] is the whole of what a request does.
#![tactic(auto)]

mod connection;
mod gathering;
mod positions;
mod reason;
mod rounds;
mod seat;
mod waiting;

pub use connection::Connection;
pub use positions::{ImagePositions, PublicationPositions};
pub use reason::{Reason, Refusal};
pub use seat::{Pauses, Seat};
