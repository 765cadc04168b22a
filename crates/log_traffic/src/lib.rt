//! A log of either kind, and what traffic makes of it: that of a publication, and that of a remote stream.
//!
//! `AnyLog` has the calls that both kinds have: how far the log reaches, who reads it, and what a poll gives; and it takes
//! the datagrams of its stream: data and heartbeats, which change only the log of a remote stream, and status messages and
//! NAKs, which only that of a publication is asked by. Contracts see a log as what is held of it, and say what calls do to
//! each whole log that it stands for.
//!
//! Beneath it are the steps of either side, which are lent one log and what they decide by. The receiver of a remote stream
//! hands in its datagrams by [`receive`] and [`receive_beat`]. [`Receiver::due`] says which NAK and which status message are
//! due to the sender, [`Receiver::pass`] counts them as sent, and [`nak_frame`] and [`status_frame`] are their frames. The
//! sender of a publication cuts its next datagram by [`next_datagram`], and [`pass`] moves the log on by it;
//! [`receive_status`] is what a receiver's status message does, [`answer_nak`] what a NAK does. Flow control by status
//! messages, loss recovery, SETUP frames and heartbeats are those of the Aeron Transport Protocol Specification.
#![tactic(auto)]

mod any_log;
mod asking;
mod cutting;
mod datagrams;
mod frames;
mod hearing;
mod laws;
mod progress;
mod receiver;
mod receiving;
mod reporting;
mod resending;
mod sending;

pub use any_log::AnyLog;
pub use asking::NakReply;
pub use cutting::{Cut, DatagramKind, Next, Pace, next_datagram, pass};
pub use datagrams::Datagrams;
pub use frames::{nak_frame, status_frame};
pub use hearing::{StatusAnswer, receive_status};
pub use image_log::Insert;
pub use laws::{
    datagrams_may_be_received, held_logs_are_asked_as_wholes, resends_carry_what_is_asked,
};
pub use log_pairs::{CopiedFragments, Fragment, FragmentCopies};
pub use progress::Progress;
pub use receiver::{Due, Receiver, Status, Turn};
pub use receiving::{receive, receive_beat};
pub use resending::{NakAnswer, answer_nak};
