//! What is published and what is subscribed to: the part of a driver's state that says which logs there are, who is
//! registered with them, and which subscription reads which.
//!
//! The lists are plain data for contracts (`Streams` of `specs/Streams.antt`). A source is one log: a publication, or an
//! image, which is the log of a remote publisher. Those who add a publication of the same place and stream are registered
//! with one log; once the last registration with it goes it lingers, and closes when it has lingered for too long.
//! `Streams::adding` says what would become of an ADD, and `Streams::add_publication` does it. An image comes by
//! `Streams::add_image`; it goes by `Streams::remove_images`, or by `Streams::close` where it is called silent. Pairs of a
//! log and a subscription are computed from the lists and a policy alone.
#![tactic(auto)]

mod adding;
mod fault;
mod images;
mod joining;
mod laws;
mod leaving;
mod lingering;
mod log_pages;
mod measures;
mod origin;
mod pairs;
mod places;
mod row;
mod sessions;
mod slots;
mod sources;
mod streams;
mod wanted;
mod wish;

pub use fault::StreamFault;
pub use laws::{
    limits_are_kept, places_are_least, places_share_nothing, sessions_are_free, slots_are_free,
};
pub use lingering::{LogPlace, is_closing, is_image_of};
pub use measures::Measures;
pub use pairs::{Pair, fits, is_allowed, is_ever_allowed, reads};
pub use row::{LogRow, Origin, Registration, Subscription};
pub use streams::Streams;
pub use wanted::{Adding, ImageWanted, Wanted};
pub use wish::Wish;
