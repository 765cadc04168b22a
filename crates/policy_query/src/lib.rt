//! What the policy in a file says: whether the file is a policy, and what it decides of a question.
#![tactic(auto)]

mod deciding;
mod document;

pub use deciding::{Checked, DecideFault, check, decide, principals};
pub use document::Document;
