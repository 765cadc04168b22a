//! Whether a client goes on with what it has to read.
//!
//! A publisher waits for its slowest reader. So a client is let go that has something to read of a source and does not go on with it
//! for too long. What it has to read is looked at now and then: nothing that the client asks for counts, but how far it has come.
//! Positions are in bytes of a stream, and moments in nanoseconds of one clock.
#![tactic(auto)]

mod marks;
mod pairs;
mod posts;
mod watch;

pub use marks::{Mark, who_is_stuck_stood_still, who_stands_still_is_stuck};
pub use pairs::Pair;
pub use posts::Post;
pub use watch::Watch;
