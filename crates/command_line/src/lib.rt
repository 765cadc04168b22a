//! The words of the command line of `aeron_policyd`, and its help.
#![tactic(auto)]

mod message_words;
mod numbers;
mod policy_words;
mod rows;
mod running_line;
mod serving_line;
mod whole_line;

pub use message_words::Messages;
pub use policy_words::{Asked, Asking, Question};
pub use running_line::{Join, Reading, Start, Talk};
pub use serving_line::{Doors, Order};
pub use whole_line::{Task, command, task_in};
