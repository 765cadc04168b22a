//! Who may do what under a policy.
//!
//! All requests are cut into parts, each of one asker, one act and an interval of streams, with the rules that decide its
//! requests, in their order. A [`Table`] counts the rows that these come to, and prints them page by page: a row is made when it is
//! printed, so that a long table takes no more memory than a short one.
#![tactic(auto)]

mod askers;
mod cells;
mod entries;
mod groups;
mod scope;
mod steps;
mod stretch;
mod table;

pub use entries::TableRow;
pub use scope::Asker;
pub use steps::Place;
pub use table::{FULL_PAGE, MOST_ROWS, Page, Table};
