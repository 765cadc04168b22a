//! What the clients of a principal have of a driver, and how much that may be: a command that would pass a bound is not handed
//! on.
//!
//! What a client has is known from its commands and the replies to them. A command that adds or removes something has a greater
//! correlation id than all before it, so that a reply names one command. What a removal names counts until the driver says that
//! it is not there. How many commands may be without an answer is bounded too.
#![tactic(auto)]

mod asked;
mod bounds;
mod changes;
mod counts;
mod flights;
mod holdings;
mod outcome;
mod row;

pub use asked::{Asked, asked_of};
pub use bounds::{Bound, Bounds};
pub use flights::Flight;
pub use holdings::Holdings;
pub use outcome::Outcome;
pub use row::{Kind, Removal, Row, Sort};
