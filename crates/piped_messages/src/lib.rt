//! Messages that a program sends from its standard input, and prints where it receives them: input is cut into messages,
//! fragments are joined to messages, and what went by is counted in a line.
#![tactic(auto)]

mod cutting;
mod figures;
mod forms;
mod joining;

pub use cutting::{Cut, first_message};
pub use figures::{Losses, Received, Sent};
pub use forms::{Form, print_message};
pub use joining::Joiner;

/// How long a message is at most, in bytes.
pub const LONGEST: usize = 16_777_216;
