//! Why a text is no policy: all that is wrong with it, each fault with its place, and what is likely meant.
//!
//! [`faults_of`] gives the faults of a document that was refused. The first of them is the one for which it was. [`places_in`] says
//! where the rules and keys of a policy's text stand, and [`nearest`] which of some words is likely meant by a misspelt one.
#![tactic(auto)]

mod fault;
mod faults;
mod places;
mod showing;
mod spelling;

pub use fault::{Cause, Fault};
pub use faults::faults_of;
pub use places::{Place, Places, places_in};
pub use spelling::nearest;
