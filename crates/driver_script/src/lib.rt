//! The run of a script: its statements as steps of a world, and the text of the answers.
//!
//! A script names principals, opens a world with a policy, and then gives the steps of a run. `docs/internals/SCRIPT.md` has
//! the language.
#![tactic(auto)]

pub mod answers;
mod ends;
mod fault;
mod input;
pub mod output;
pub mod script;

pub use ends::{MayFail, Source, Target};
pub use fault::RunFault;
pub use input::read_input;
