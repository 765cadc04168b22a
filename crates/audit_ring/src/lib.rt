//! The last decisions of an actor.
//!
//! An `Audit` keeps the last 4,096 decisions that were pushed, and the number of those before them; an `AuditOf` does so with
//! anything else. All of its memory is taken when it is made, so a push never fails.
#![tactic(auto)]

mod audit;
mod laws;

pub use audit::{Audit, AuditOf, NoMemory};
pub use laws::end_of_the_pushes_is_kept;
