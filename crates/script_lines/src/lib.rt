//! What the lines of a script say: words, numbers and bytes, the settings that are chosen, and one statement after
//! another.
#![tactic(auto)]

mod hex;
pub mod line;
mod number;
mod pieces;
pub mod settings;
pub mod statements;
