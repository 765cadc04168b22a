//! The registry of a driver, shown to readers that never wait.
//!
//! [`make`] takes a registry over, and gives its publisher and the passes of its readers. A commit puts an entry that was
//! planned on [`Publisher::newest`] into the history, shows readers the registry after it, and gives a receipt:
//! [`Publisher::commit`]. It can be made in two calls, [`Publisher::begin`] and [`Begun::show`]; between them the publisher
//! has the registry after the entry, and readers do not see it yet. [`Pass::enter`] takes a look at the registry that is
//! shown, and [`Look::leave`] ends it. A pass that has learned a receipt ([`Pass::learn`]) sees no registry before the one
//! that the receipt names.
//!
//! Contracts see the history, the list of all entries that were committed: a publisher as the whole list, a receipt and a
//! pass as a beginning of it, and a look as the beginning whose registry it shows. Two values are of one registry where they
//! have the same book.
#![tactic(auto)]

mod begun;
mod copies;
mod fault;
mod front;
mod laws;
mod look;
mod making;
mod pass;
mod publisher;
mod receipt;
mod rule;
mod shown;

pub use begun::Begun;
pub use fault::MakeFault;
pub use laws::{
    caches_stay_right_of_later_looks, later_looks_are_by_that_policy_or_a_later_one,
    looks_are_by_the_policy_of_their_moment,
};
pub use look::Look;
pub use making::make;
pub use pass::Pass;
pub use publisher::Publisher;
pub use receipt::Receipt;
