//! The log of a remote stream, rebuilt from the frames that come, in any order.
//!
//! `ImageLog::insert` says what becomes of a frame; `contiguous` and `gap` say how far the stream is whole and what is
//! missing; `frames_from` lends what is whole to readers; frames below the term of the slowest subscription go.
//! `poll_copies` is a poll. Contracts see a log as the lease that it has and a map from positions to frames whose ranges do
//! not meet. But for `ImageRoom::new`, by which the memory of a log is taken beforehand, and for the copies of a
//! poll, nothing here takes memory. Positions and frames are those of the Aeron Transport Protocol Specification.
#![tactic(auto)]

mod handed;
mod ident;
mod insert;
mod laws;
mod log;
mod place;
mod polling;
mod reading;
mod room;
mod status;
mod store;

pub use ident::Ident;
pub use insert::Insert;
pub use laws::{frames_may_be_handed_in, polls_give_frames};
pub use log::ImageLog;
pub use log_pairs::{CopiedFragments, Fragment, FragmentCopies, Pair};
pub use reading::{Frames, ImageFrame};
pub use room::ImageRoom;
pub use status::LastStatus;
