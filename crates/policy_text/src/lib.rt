//! Policies as TOML texts.
//!
//! `read` gives the policy that a text denotes, or the text's first fault in a fixed order; `policy_from` that of a document
//! which is parsed already. The names of principals are not the text's: they are handed in as `Names`.
#![tactic(auto)]

mod document;
mod fault;
mod fields;
mod members;
mod names;
mod version;

pub use document::{policy_from, read};
pub use fault::{Field, PolicyFault};
pub use names::Names;
pub use version::Version;
