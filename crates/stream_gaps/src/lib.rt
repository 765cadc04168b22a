//! What of a stream was lost at its edges: what a subscriber passed over between two images of a session, and what a publisher
//! sent that nobody took, and a reader that stands at what is not made good.
//!
//! The Aeron Transport Protocol makes good what is lost while a stream lasts. What is between the end of one image and the
//! beginning of the next one is not: a receiver begins where the SETUP says.
#![tactic(auto)]

mod gap;
mod sessions;
mod standing;
mod taken_up;
mod untaken;

pub use gap::{Gap, NotRetransmitted, NotTaken};
pub use sessions::Sessions;
pub use standing::{Reading, Standing};
pub use taken_up::TakenUp;
pub use untaken::Untaken;
