//! The streams that a subscriber reads, and the messages of them that it prints, by a thread of its own where it may not wait.
#![tactic(auto)]

mod inbox;
mod output;

pub use inbox::{Image, Images, Inbox};
pub use output::Output;
