//! A bounded queue of events, from many senders to one taker.
//!
//! [`make`] gives a queue's senders and its taker. [`Sender::push`] puts an event at the back, or hands it back where the
//! queue was full at one moment; [`Taker::pop`] takes the one at the front, or answers `None` where the queue was empty at
//! one moment. Each event is taken once at most, and those of one sender in its order, whatever the other threads did.
//! [`Sender::len`] says how many events the queue held at one moment.
//!
//! Both are lent what their caller knows of the queue ([`Known`]), by [`Sender::note`], [`Sender::end`] or
//! [`Taker::note`]. It decides nothing and has no bytes; but each answer fits it, so a `None` says that all that is known
//! to have been sent was taken, and a refusal that so many more than those known to be taken were sent.
//!
//! Contracts see a sender as what it sent ([`Sender`]: `Sent`) and the taker as what it took (`Taken`). No order is
//! promised between senders, and no call is promised to return: `push` and `pop` try again while other threads are in the
//! way.
#![tactic(auto)]

mod known;
mod laws;
mod letter;
mod making;
mod rule;
mod sender;
mod taker;

pub use known::{Facts, Known};
pub use laws::a_lone_sender_fills_the_queue;
pub use letter::{Letter, Refused, SentBy};
pub use making::make;
pub use sender::Sender;
pub use taker::Taker;

/// How many events a queue holds at most.
pub const EVENTS: usize = 1024;
