//! A wire that gives what comes from addresses that are bound, and drops the rest.
//!
//! [`Guarded`] stands around another wire. A datagram of an address that nobody bound is no event of it: it is dropped as it is
//! read, as if it was lost on its way. So is what no receiver of a bound address sends: a NAK for more than a window,
//! and NAKs and status messages in greater numbers than one address may send in a time. Contracts see what went as the events of
//! the wire within without the reads that were dropped. [`Drops`] counts these by their kind.
#![tactic(auto)]

mod cause;
mod drops;
mod guard;
mod guarded;
mod kind;
mod origin;
mod spent;

pub use cause::Cause;
pub use drops::{Dropped, Drops};
pub use guard::Guard;
pub use guarded::Guarded;
pub use kind::Kind;
pub use origin::Origin;
