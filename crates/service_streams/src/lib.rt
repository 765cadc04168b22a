//! A connection of a client in another process, over a stream of bytes: each record that comes is answered, in its order, until
//! the stream or the client ends.
#![tactic(auto)]

mod long;
mod talking;
mod writing;

pub use long::LongRecords;
pub use talking::{Ended, Greeting, dismiss, talk};
