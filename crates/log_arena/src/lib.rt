//! One region of memory in leases of whole pages, none of which share a page.
#![tactic(auto)]

mod arena;
mod holes;
pub mod laws;
mod lease;
mod memory;

pub use arena::{Arena, NoMemory, NoRoom, PAGE};
pub use lease::Lease;
