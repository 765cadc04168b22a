//! The registry of a driver, and what each event makes of it.
//!
//! An event of the conductor is a client that attaches, a command of one, a policy that is put in force, time that goes on,
//! or the SETUP of a remote publisher, by which an image may come. `Registry::plan` decides it and says what goes out, as
//! an `Entry`; the registry stays as it is. `Registry::apply` does an entry, in place and without memory. `Registry::step`
//! is both. What goes out is `outcome_of`, and what is left is `state_after`, two total functions on the registry as plain
//! data. After each event the images go that no subscription reads.
//!
//! `Registry::list` and `Registry::value` show a client counters, `Registry::offering` and `Registry::receiving` say what it
//! asks of a log, `Registry::image_for` which image a datagram is for, `Registry::publication_for` and `Registry::resending`
//! which publication, and who may have frames of it again, and `Registry::outlets` where the datagrams of one go. None of
//! them changes anything.
#![tactic(auto)]

mod asked;
mod pairs;
mod parts;
mod rules;
mod state;

pub use asked::cached::cached_verdicts_stay_right;
pub use asked::image_request::Astray;
pub use asked::listing::{Listed, ListedCounter, Shown};
pub use asked::log_request::LogRequest;
pub use asked::looking::{policies_are_of_their_moment, policies_only_get_newer};
pub use asked::publication_request::JoinRequest;
pub use asked::send_request::Outlet;
pub use asked::view::View;
pub use channel_uri::Address;
pub use parts::both;
pub use state::entry::Entry;
pub use state::event::{End, Event, Inputs};
pub use state::outcome::{Outcome, Response};
pub use state::peer::Peer;
pub use state::received::Received;
pub use state::refusal::Refusal;
pub use state::registry::Registry;
pub use state::replies::{Message, Reply};
pub use state::settings::Settings;
pub use state::setup_fault::SetupFault;
pub use state::source_identity::SourceIdentity;
