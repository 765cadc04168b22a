//! How far the receivers of one log have come, by what each of them reported last.
//!
//! The table is plain data for contracts: a row for each address from which a status message was accepted, in the order in which
//! they were heard last. It is kept beside the log, in place, and takes no memory.
#![tactic(auto)]

mod report;
mod reports;

pub use report::Report;
pub use reports::Reports;
