//! What a reload of a policy would change: the requests that are decided otherwise by the new policy than by the old one.
//!
//! [`differences`] gives the rows, each of what decides in the old policy and what does in the new one, a rule or the default, and
//! of whose requests, of which acts and on which streams. A request that one policy allows and the other denies is in a row. A row
//! has an example, on whose channel all its requests are decided so, or else says that there may be one. [`diff_text`] writes the
//! rows.
#![tactic(auto)]

mod acts;
mod askers;
mod changes;
mod columns;
mod cutting;
mod diff_rows;
mod examples;
mod lines;
mod narrowing;
mod pairs;
mod reach;
mod requests;
mod scope;
mod showing;
mod taking;

pub use changes::{Change, changes_of};
pub use diff_rows::{Row, are_apart, differences};
pub use examples::Example;
pub use lines::diff_text;
pub use pairs::Deciders;
pub use scope::{Asker, Scope};
