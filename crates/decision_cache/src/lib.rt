//! Verdicts that were decided lately, by the policy's number, who asked, for what, and on which subject.
//!
//! [`Cache::verdict`] answers what the policy that is handed in decides, from the cache where it is there. Contracts see
//! a cache as its entries. What a caller has to keep is that an entry under this policy's number, subject, principal and
//! act has this policy's verdict on this request; `cached_verdicts_stay_sound` says how a list of policies, each under a number of
//! its own, keeps it.
#![tactic(auto)]

mod cache;
mod deciding;
mod key;
mod laws;

pub use cache::Cache;
pub use deciding::{Decides, Numbered};
pub use key::Key;
pub use laws::cached_verdicts_stay_sound;
