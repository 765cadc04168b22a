//! Steps on one open log, by any view of a registry: what an actor does to the log that it is lent.
//!
//! An [`OpenLog`] is a value of its own. `offer_step`, `poll_step`, `packet_step`, `send_step` and `image_step`
//! take one step on it, and report what the policy decided for it. Contracts see the log as a whole list of frames. Whoever
//! keeps logs, in a list or each under a lock, takes these steps and no others.
#![tactic(auto)]

mod answer;
mod answered;
mod asking;
mod cause;
mod hearing;
mod idents;
mod offering;
mod open_log;
mod packets;
mod polling;
mod progress;
mod receiving;
mod recovery;
mod reporting;
mod resending;
mod sending;

pub use answer::{Answer, Offered};
pub use answered::{Answered, Came, Looked};
pub use asking::{Asks, Uncached};
pub use cause::Cause;
pub use idents::{ident_of, stream_ident};
pub use image_log::Insert;
pub use log_traffic::{CopiedFragments, Fragment, FragmentCopies, Progress};
pub use offering::{closed, offer_asked, offer_step};
pub use open_log::OpenLog;
pub use packets::{PacketRequest, packet_request, packet_step};
pub use polling::poll_step;
pub use reporting::image_step;
pub use sending::{send_own, send_step};
