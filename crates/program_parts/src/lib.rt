//! What the program's parts have in common: what it takes of the machine, standard input cut into messages, and lines on standard
//! error that nobody waits for.
#![tactic(auto)]

mod fault;
mod input;
mod lines;
mod log;
mod machine;

pub use fault::PartFault;
pub use input::Input;
pub use log::Log;
pub use machine::{Disk, Machine, SECOND, pause, pause_until, report, ticks};
