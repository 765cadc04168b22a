//! A driver that is run step by step, with the logs of its publications and images.
//!
//! Each call of [`SteppedDriver`] is one step, by the newest registry or by an older one that is handed in, and reports what the
//! policy decided for it. Contracts see the logs as whole lists of frames. A step on one log is that of `log_steps`, taken on
//! the first log of its source.
//!
//! An event is given how far each log reaches and, where it is a tick, which images are silent. Then the logs follow: the one
//! opens that the event names, of a publication or of the image that a SETUP makes, those close that it names, and exactly
//! the pairs read. All memory is taken before anything is changed.
#![tactic(auto)]

mod by_view;
mod caches;
mod inputs;
mod laws;
mod open_logs;
mod opening;
mod requests;
mod step;
mod stepped_driver;

pub use laws::{
    addresses_are_learnt_exactly, bytes_come_from_the_live_log, logs_follow_the_registry,
    offers_are_granted_exactly, payloads_come_from_their_publisher, policies_stand_at_their_moment,
    polls_are_granted_exactly, resends_come_from_the_live_log, runs_take_events,
    sends_are_granted_exactly,
};
pub use step::Step;
pub use stepped_driver::SteppedDriver;
