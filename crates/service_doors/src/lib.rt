//! The doors of a driver that serves: a socket for each principal and one for operators, who came in by them, what these
//! share, and what wakes those who wait.
//!
//! It knows no driver: what happens at the doors is an [`Event`], and whoever has the driver says what came of it.
#![tactic(auto)]

mod bells;
mod budgets;
mod descriptors;
mod doors;
mod fault;
mod folders;
mod guests;
mod hall;
mod memory;
mod orders;
mod places;
mod serving;
mod share;

pub use bells::{Bells, Watch};
pub use doors::{Door, close_doors, open_doors};
pub use fault::{DoorFault, DoorRefusal, PlaceFault};
pub use hall::{Event, Hall};
pub use memory::DoorMemory;
pub use places::{Owner, Place, Plan, mode_in, place_in};
pub use serving::{AskedBounds, Begun, Decided, Entering, Reloaded, Returned, Serving};
pub use share::{Share, Usual};
