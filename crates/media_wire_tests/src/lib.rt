//! Tests of `media_wire`: of sockets, of which no contract says what they carry, and of each wire once.
#![tactic(auto)]

mod draining;
#[cfg(test)]
mod faults;
#[cfg(test)]
mod networks;
#[cfg(test)]
mod reading;
mod room;
#[cfg(test)]
mod sharing;
#[cfg(test)]
mod sockets;
#[cfg(test)]
mod waiting;

pub use draining::drain;
pub use room::Room;
