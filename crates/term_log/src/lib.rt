//! The log of a publication: all frames that were ever appended, of which the last three terms are held in reused
//! buffers.
//!
//! [`TermLog::offer`] appends a message, cut into frames, or a pad to the end of a term. [`TermLog::frames_from`] and
//! [`TermLog::frames_over`] lend frames that are held. Contracts say of which lists of frames a log stands for all
//! (`StandsFor`), and of which whole logs (`Stands`). [`TermLog::poll_copies`] is a poll. [`TermLog::status`] and the calls
//! after it say how far a sender may send, and when what is due. But for [`LogRoom::new`], by which the memory of a log is
//! taken beforehand, and for the copies of a poll, nothing here takes memory.
#![tactic(auto)]

mod appender;
mod buffers;
mod cutting;
mod ident;
mod laws;
mod offer;
mod polling;
mod ranges;
mod reading;
mod room;
mod sender;
mod status;
mod term_log;

pub use ident::{Ident, LogKind};
pub use laws::{offers_count_messages, polls_give_frames};
pub use log_pairs::{CopiedFragments, Fragment, FragmentCopies, Pair};
pub use offer::Offer;
pub use ranges::FramesOver;
pub use reading::{Content, Frames, LogFrame};
pub use room::LogRoom;
pub use status::Status;
pub use term_log::TermLog;
